// The lengths of the tables.
use rows::limits::{ROWS, WORD_BITS};
use tables::limits::GROUP_NUMBERS;

// A column has a bit for each member, of whom there are no more than rows, and the table of columns one column for each group number.
pub const COLUMN_WORDS: usize = ROWS / WORD_BITS as usize;

// Columns stand so many words apart, a few more than they have: at a power of two apart they would share few sets of a cache.
pub const COLUMN_STRIDE: usize = COLUMN_WORDS + 8;

pub const COLUMNS: usize = COLUMN_STRIDE * GROUP_NUMBERS;

// So many words of a column are looked at together, and so many members with them.
pub const BLOCK_WORDS: usize = 8;

pub const BLOCK_MEMBERS: usize = BLOCK_WORDS * WORD_BITS as usize;
