// The rows of a register: one row decoded from the lent bytes, and all rows read to an end or to a refusal (10 to 13, 15). `decode` finds a row at an
// offset, `reader` walks from row to row, `read` tests each row before it reads the next, `sides` has the sides; `specs/RowsRead` says what they hand up.
// Document 01, "Registers" and "Turned back, in checking order"; document 02, cards 2, 4 and 5.
#![tactic(auto)]

pub mod decode;
pub mod limits;
pub mod read;
pub mod reader;
pub mod sides;
