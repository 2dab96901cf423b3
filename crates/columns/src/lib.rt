// Columns of bits: one for each group, with a bit for each member of a register, 64 members a word.
// `table` reads and sets a word of a column, `counts` counts the members of each group (`specs/Counts`); `specs/ColumnSteps` says what a store sets.
// Document 01, "Registers"; document 02, cards 2, 5 and 14.
#![tactic(auto)]

pub mod counts;
pub mod limits;
pub mod table;
