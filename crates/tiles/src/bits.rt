// The groups of a word put into the columns bit by bit, lowest first; as many are left to put as there are ones left.
ghost use Rattle.std.specs.Prelude.{◌<◌, ◌+◌, ◌≤◌, length};
ghost use Rattle.wire.specs.Capacity.{group_capacity};
ghost use Rattle.rows.specs.RowsRead.{word_bits};
ghost use Rattle.columns.specs.Columns.{column_words, columns_length};
ghost use Rattle.tiles.specs.TileSteps.{LowestGroup, GroupPut, GroupsPut};

use columns::table::put_column_word;
use tables::groups::GroupNo;

// the group of the lowest bit of a word, `before` groups being in the words below
fn lowest_group(word: u64, before: u16) -> GroupNo
    requires { (0 < word) × (before ≤ group_capacity) }
    ensures { LowestGroup before word result.0 }
{
    GroupNo(before + word.trailing_zeros() as u16 + 1)
}

// one bit of word w of a group's column, that of member i of a tile
fn put_group(columns: &mut [u64], g: GroupNo, w: usize, i: usize)
    requires { (g.0 ≤ group_capacity) × ((w < column_words) × ((i < word_bits) × (columns_length ≤ length columns.old))) }
    ensures { GroupPut g.0 w i columns.old columns.new }
{
    put_column_word(columns, g, w, 1 << i);
}

// the bits of member i in the groups of a word, lowest first
pub fn put_groups(word: u64, before: u16, w: usize, i: usize, columns: &mut [u64])
    requires { (before + word_bits ≤ group_capacity) × ((w < column_words) × ((i < word_bits) × (columns_length ≤ length columns.old))) }
    ensures { GroupsPut word before w i columns.old columns.new }
{
    let mut left = word;
    while left.count_ones() != 0 {
        put_group(columns, lowest_group(left, before), w, i);
        left &= left - 1;
    }
}
