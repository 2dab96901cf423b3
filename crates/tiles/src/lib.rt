// The rows of a register that was read, into columns: `fill` puts the rows into tiles of 64 members, `tile` puts a tile into the columns,
// transposed or by `bits`. `specs/TileSteps` says what each step sets.
// Document 01, "Registers"; document 02, cards 2, 5 and 14.
#![tactic(auto)]

pub mod bits;
pub mod fill;
pub mod limits;
pub mod tile;
