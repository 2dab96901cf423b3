// A column of bits for each group: bit i is set where member i is in the group, 64 members a word.
ghost use Rattle.std.specs.Prelude.{◌≡◌, ◌<◌, ◌≤◌, length, get_or};
ghost use Rattle.wire.specs.Capacity.{group_capacity};
ghost use Rattle.wire.specs.Limits.{row_limit};
ghost use Rattle.columns.specs.ColumnSteps.{ColumnPut, Empty};
ghost use Rattle.columns.specs.Columns.{column_word, column_words, columns_length, BlocksFor};

use crate::limits::{BLOCK_MEMBERS, COLUMN_STRIDE, COLUMNS};
use tables::groups::GroupNo;

// The columns, lent to who reads them, in the order of the groups' numbers.
#[derive(Clone, Copy)]
pub struct Columns<'a> {
    pub words: &'a [u64],
    ghost long: { columns_length ≤ length words.now },
}

impl<'a> Columns<'a> {
    // a table to lend, in which no bit is set
    pub fn new() -> [u64; COLUMNS]
        ensures { Empty result }
    {
        [0; COLUMNS]
    }

    // one word of a group's column
    pub fn word(&self, g: GroupNo, w: usize) -> u64
        requires { column_word g.0 w < length self.now.words.now }
        ensures { result ≡ get_or self.now.words.now (column_word g.0 w) 0 }
    {
        self.words[COLUMN_STRIDE * (g.0 as usize) + w]
    }
}

// the bits of a word are set in a group's column
pub fn put_column_word(columns: &mut [u64], g: GroupNo, w: usize, word: u64)
    requires { (g.0 ≤ group_capacity) × ((w < column_words) × (columns_length ≤ length columns.old)) }
    ensures { ColumnPut g.0 w word columns.old columns.new }
{
    let at = COLUMN_STRIDE * (g.0 as usize) + w;
    columns[at] |= word;
}

// the blocks of words that have a bit for each of n members
pub fn blocks_for(n: usize) -> usize
    requires { n ≤ row_limit }
    ensures { BlocksFor n result }
{
    n.div_ceil(BLOCK_MEMBERS)
}

#[cfg(test)]
mod tests {
    use super::*;

    #[test]
    fn no_bit_is_set(rt: HostRuntime) {
        let words = Columns::new();
        assert!(rt; words.iter().all(|word| *word == 0));
    }
}
