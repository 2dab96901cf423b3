// A tile has the words of 64 members, word k of member i at 64 k + i. It goes into the columns as one word of each: its words are
// transposed, 64 groups at a time, or put bit by bit where a sample of its members is in few groups.
ghost use Rattle.std.specs.Prelude.{◌+◌, ◌≤◌, ◌<◌, ◌*◌, length};
ghost use Rattle.wire.specs.Capacity.{group_capacity};
ghost use Rattle.wire.specs.Edition.{edition_of, membership_bytes};
ghost use Rattle.wire.specs.Limits.{row_limit};
ghost use Rattle.rows.specs.RowsRead.{word_bits};
ghost use Rattle.columns.specs.ColumnSteps.{MembersPut, Cleared};
ghost use Rattle.columns.specs.Columns.{column_words, columns_length};
ghost use Rattle.tiles.specs.TileSteps.{ColumnsPut, of_member, first_groups, TilePut, TileRoom, WordPut, RowPut, RoomMade};

use crate::bits::put_groups;
use crate::limits::{FEW_GROUPS, SAMPLE, TILE_MEMBERS, TILE_WORDS};
use bit_matrix::transpose::transpose;
use columns::table::put_column_word;
use rows::decode::word_at;
use rows::limits::{WORD_BITS, row_words};
use tables::groups::GroupNo;

// The words, and two tables to transpose 64 of them in, for who lends them.
#[derive(Drop)]
pub struct Tile {
    pub words: [u64; TILE_WORDS],
    pub transposed: [u64; TILE_MEMBERS],
    pub spare: [u64; TILE_MEMBERS],
}

impl Tile {
    // nobody
    pub fn new() -> Tile
        ensures { Cleared group_capacity result.words }
    {
        Tile {
            words: [0; TILE_WORDS],
            transposed: [0; TILE_MEMBERS],
            spare: [0; TILE_MEMBERS],
        }
    }
}

// the transposed words of 64 members, as word w of the columns of 64 groups, `before` groups being before these
fn put_columns(transposed: &[u64], before: u16, w: usize, columns: &mut [u64])
    requires { (before + word_bits ≤ group_capacity)
        × ((w < column_words) × ((word_bits ≤ length transposed.now) × (columns_length ≤ length columns.old))) }
    ensures { ColumnsPut transposed.now before word_bits w columns.old columns.new }
{
    for (j, word) in transposed[..TILE_MEMBERS].iter().enumerate() {
        put_column_word(columns, GroupNo(before + j as u16 + 1), w, *word);
    }
}

// the bits of member i of a tile, word by word
fn put_member(tile: &[u64], words: u16, w: usize, i: usize, columns: &mut [u64])
    requires { (word_bits * words ≤ length tile.now)
        × ((word_bits * words ≤ group_capacity) × ((w < column_words) × ((i < word_bits) × (columns_length ≤ length columns.old)))) }
    ensures { MembersPut (of_member i (λ g. first_groups tile.now words g i)) w columns.old columns.new }
{
    for k in 0..words {
        let word = tile[TILE_MEMBERS * (k as usize) + i];
        put_groups(word, WORD_BITS * k, w, i, columns);
    }
}

// a tile as word w of the columns, member by member
fn put_members(tile: &[u64], words: u16, w: usize, columns: &mut [u64])
    requires { (word_bits * words ≤ length tile.now)
        × ((word_bits * words ≤ group_capacity) × ((w < column_words) × (columns_length ≤ length columns.old))) }
    ensures { TilePut tile.now words w columns.old columns.new }
{
    for i in 0..TILE_MEMBERS {
        put_member(tile, words, w, i, columns);
    }
}

// a tile as word w of the columns, 64 groups at a time
fn put_transposed(
    tile: &[u64],
    words: u16,
    w: usize,
    columns: &mut [u64],
    transposed: &mut [u64],
    spare: &mut [u64],
)
    requires { TileRoom words w tile.now columns.old transposed.old spare.old }
    ensures { TilePut tile.now words w columns.old columns.new }
{
    for k in 0..words {
        let at = TILE_MEMBERS * (k as usize);
        transpose(tile, at, transposed, spare);
        put_columns(transposed, WORD_BITS * k, w, columns);
    }
}

// the groups of a sample of the members of whom these are words
fn sampled(words: &[u64]) -> u64 {
    words
        .iter()
        .step_by(TILE_MEMBERS / SAMPLE)
        .fold(0, |some, word| some | *word)
}

// Whether a sample of a tile's members have few groups together. It decides which way is likely the quicker one, and nothing else.
fn has_few_groups(tile: &[u64], words: u16) -> bool
    requires { word_bits * words ≤ length tile.now }
{
    tile[..TILE_MEMBERS * (words as usize)]
        .chunks_exact(TILE_MEMBERS)
        .all(|words| sampled(words).count_ones() <= FEW_GROUPS)
}

// A tile as word w of the columns of the groups that its first words have. Then it is empty.
pub fn put_tile(
    tile: &mut [u64],
    words: u16,
    w: usize,
    columns: &mut [u64],
    transposed: &mut [u64],
    spare: &mut [u64],
)
    requires { (group_capacity ≤ length tile.old) × TileRoom words w tile.old columns.old transposed.old spare.old }
    ensures { TilePut tile.old words w columns.old columns.new × Cleared group_capacity tile.new }
{
    if has_few_groups(tile, words) {
        put_members(tile, words, w, columns);
    } else {
        put_transposed(tile, words, w, columns, transposed, spare);
    }
    tile[..TILE_WORDS].fill(0);
}

// one word of member i of a tile
fn put_word(tile: &mut [u64], k: u16, i: usize, word: u64)
    requires { (word_bits * (k + 1) ≤ group_capacity) × ((i < word_bits) × (group_capacity ≤ length tile.old)) }
    ensures { WordPut word (word_bits * k) i tile.old tile.new }
{
    tile[TILE_MEMBERS * (k as usize) + i] |= word;
}

// One of the rows of member i of a tile. It has two words or four, put one after another: a loop over so few costs more.
pub fn put_row(register: &[u8], edition: u16, offset: usize, i: usize, tile: &mut [u64])
    requires { (offset + membership_bytes (edition_of edition) ≤ length register.now) × ((i < word_bits) × (group_capacity ≤ length tile.old)) }
    ensures { RowPut (edition_of edition) register.now offset i tile.old tile.new }
{
    put_word(tile, 0, i, word_at(register, offset, 0));
    put_word(tile, 1, i, word_at(register, offset, 1));
    if row_words(edition) > 2 {
        put_word(tile, 2, i, word_at(register, offset, 2));
        put_word(tile, 3, i, word_at(register, offset, 3));
    }
}

// How many tiles are put, where the last of so many members is to be in the tile behind them: a tile that has no room left for it is put.
pub fn make_room(
    tile: &mut [u64],
    words: u16,
    members: usize,
    tiles: usize,
    columns: &mut [u64],
    transposed: &mut [u64],
    spare: &mut [u64],
) -> usize
    requires { (group_capacity ≤ length tile.old) × ((members ≤ row_limit) × ((word_bits * tiles < members)
        × ((members ≤ word_bits * tiles + word_bits + 1) × TileRoom words tiles tile.old columns.old transposed.old spare.old))) }
    ensures { RoomMade words members columns.old tile.old tiles columns.new tile.new result }
{
    if members <= TILE_MEMBERS * tiles + TILE_MEMBERS {
        return tiles;
    }
    put_tile(tile, words, tiles, columns, transposed, spare);
    tiles + 1
}

#[cfg(test)]
mod tests {
    use super::*;

    #[test]
    fn nobody_is_in_a_new_tile(rt: HostRuntime) {
        let tile = Tile::new();
        assert!(rt; tile.words.iter().all(|word| *word == 0));
    }
}
