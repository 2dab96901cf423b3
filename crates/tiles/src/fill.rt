// The columns of a register that was read: its rows go into a tile, and each full tile into the columns. Rows that go on with one
// member set its bits in the groups of each.
ghost use Rattle.std.specs.Prelude.{◌≡◌, cond, ◌+◌, ◌<◌, ◌*◌, ◌≤◌, length};
ghost use Rattle.wire.specs.Capacity.{group_capacity};
ghost use Rattle.wire.specs.Edition.{edition_of};
ghost use Rattle.wire.specs.Limits.{row_limit};
ghost use Rattle.rows.specs.RowsRead.{word_bits, rows_before, RowsReadable};
ghost use Rattle.columns.specs.ColumnSteps.{Empty};
ghost use Rattle.columns.specs.Columns.{columns_length, ColumnsFilled};

use crate::limits::{TILE_MEMBERS, TILE_WORDS};
use crate::tile::{make_room, put_row, put_tile};
use rows::limits::WORD_BITS;
use rows::reader::RowReader;

// how many members there are with one row more, which is joined to the row before or not
fn with_row(members: usize, joined: bool) -> usize
    requires { members < row_limit }
    ensures { result ≡ cond joined members (members + 1) }
{
    if joined { members } else { members + 1 }
}

// the words that have a bit for each of so many groups
fn group_words(size: u16) -> u16
    requires { size ≤ group_capacity }
    ensures { (size ≤ word_bits * result) × (word_bits * result ≤ group_capacity) }
{
    size.div_ceil(WORD_BITS)
}

// The columns of so many groups, of the rows of a register that was read, and how many members they have: the reader walks the rows
// again, finds each at its offset, and tells which go on with the member before.
pub fn fill_columns(
    register: &[u8],
    edition: u16,
    size: u16,
    rows: usize,
    columns: &mut [u64],
) -> usize
    requires { (size ≤ group_capacity) × ((rows ≤ row_limit)
        × (RowsReadable (edition_of edition) register.now rows × ((columns_length ≤ length columns.old) × Empty columns.old))) }
    ensures { ColumnsFilled size (rows_before (edition_of edition) register.now rows) result columns.new }
{
    let mut tile = [0; TILE_WORDS];
    let mut transposed = [0; TILE_MEMBERS];
    let mut spare = [0; TILE_MEMBERS];
    let mut reader = RowReader::new(register, edition);
    let words = group_words(size);
    let mut members = 0;
    let mut tiles = 0;
    for _ in 0..rows {
        let Ok(Some(found)) = reader.next() else {
            unreachable!();
        };
        members = with_row(members, found.joined);
        tiles = make_room(
            &mut tile,
            words,
            members,
            tiles,
            columns,
            &mut transposed,
            &mut spare,
        );
        let i = members - 1 - TILE_MEMBERS * tiles;
        put_row(register, edition, found.bits, i, &mut tile);
    }
    put_tile(
        &mut tile,
        words,
        tiles,
        columns,
        &mut transposed,
        &mut spare,
    );
    members
}
