// The lengths of a tile, and when it is taken to have few groups.
use rows::limits::WORD_BITS;
use tables::limits::GROUP_CAPACITY;

// A tile has the words of so many members: word k of member i is at TILE_MEMBERS * k + i.
pub const TILE_MEMBERS: usize = WORD_BITS as usize;

pub const TILE_WORDS: usize = GROUP_CAPACITY;

// A tile is taken to have few groups where so many of its members, the same number apart, have no more of 64 groups together.
pub const SAMPLE: usize = 16;

pub const FEW_GROUPS: u32 = 8;
