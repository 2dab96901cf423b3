// The capacities of a register and the layout of a row: document 01, "Registers"; document 02, cards 4 and 5.
ghost use Rattle.std.specs.Prelude.{◌≡◌};
ghost use Rattle.wire.specs.Edition.{edition_of, row_bytes};
ghost use Rattle.rows.specs.RowsRead.{row_frame, row_words};

use wire::edition::{group_limit, row_kind, row_length};

// Most rows of a register, and the row that bytes after them count as.
pub const ROWS: usize = 2048;

pub const ROW_TOO_MANY: u32 = ROWS as u32 + 1;

// A row: length and kind, the member, the side, a bit for each group that the edition may have.
pub const ROW_MEMBER: usize = 4;

pub const ROW_SIDE: usize = 8;

pub const ROW_BITS: usize = 10;

// The membership bytes as words of eight bytes, a bit for each of 64 groups.
pub const WORD_BYTES: usize = 8;

pub const WORD_BITS: u16 = 64;

// the bytes of a row: the length field counts what follows it
pub fn row_bytes(edition: u16) -> usize
    ensures { result ≡ row_bytes (edition_of edition) }
{
    row_length(edition) as usize + 2
}

// length and kind, read as one field
pub fn row_frame(edition: u16) -> u32
    ensures { result ≡ row_frame (edition_of edition) }
{
    row_length(edition) as u32 + 65536 * (row_kind(edition) as u32)
}

// the words of a row's membership bytes
pub fn row_words(edition: u16) -> u16
    ensures { result ≡ row_words (edition_of edition) }
{
    group_limit(edition) / WORD_BITS
}
