// How many members each group has: the ones of its column.
ghost use Rattle.std.specs.Prelude.{ℕ, ◌≡◌, ◌<◌, ◌*◌, ◌^◌, ◌≤◌, get_or, length, sum_by, count_ones};
ghost use Rattle.laws.specs.Sum.{sum};
ghost use Rattle.wire.specs.Capacity.{group_capacity};
ghost use Rattle.rows.specs.RowsRead.{word_bits};
ghost use Rattle.columns.specs.Columns.{column_words, column_digit};
ghost use Rattle.columns.specs.Counts.{ColumnsCounted};

use crate::limits::COLUMN_STRIDE;
use crate::table::Columns;
use tables::groups::GroupNo;

// the ones of words, which have 64 digits each, added up in 64 bits, which is a little quicker than in 32
fn ones(words: &[u64]) -> u64
    requires { length words.now ≤ column_words }
    ensures { (result ≡ sum_by count_ones words.now) × ((i : ℕ) → get_or words.now i 0 < 2 ^ 64) }
{
    words.iter().map(|word| word.count_ones() as u64).sum()
}

impl<'a> Columns<'a> {
    // the ones of the first words of a group's column
    pub fn count(&self, g: GroupNo, words: usize) -> u32
        requires { (g.0 ≤ group_capacity) × (words ≤ column_words) }
        ensures { result ≡ sum (column_digit self.now.words.now g.0) (word_bits * words) }
    {
        let start = COLUMN_STRIDE * (g.0 as usize);
        ones(&self.words[start..start + words]) as u32
    }
}

// the count of each group
pub fn count_groups(columns: &Columns, size: u16, words: usize, counts: &mut [u32])
    requires { (size ≤ group_capacity) × ((words ≤ column_words) × (size < length counts.old)) }
    ensures { ColumnsCounted columns.now.words.now size words counts.new }
{
    for g in 1..=size {
        counts[g as usize] = columns.count(GroupNo(g), words);
    }
}
