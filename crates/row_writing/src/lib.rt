// The writing of a register's rows: one row of an edition at an offset of the lent bytes, from its member, its side and the words of
// its membership. `specs/WordsRow` says which row these are; its bytes are those that `wire` gives it (`encode_row`).
// Document 01, "Registers"; document 02, cards 4 to 6.
#![tactic(auto)]

ghost use Rattle.std.specs.Prelude.{◌≡◌, ◌+◌, ◌*◌, ◌≤◌, length, take, drop};
ghost use mathlib.Core.List.{◌++◌, flat_map};
ghost use Rattle.std.proofs.lemmas.List.Edits.{sets};
ghost use Rattle.wire.specs.Bytes.{le16, le32};
ghost use Rattle.wire.specs.U64.{le64};
ghost use Rattle.wire.specs.Edition.{edition_of, row_bytes, row_head};
ghost use Rattle.wire.specs.Member.{side_number};
ghost use Rattle.wire.specs.Encoding.{encode_row};
ghost use Rattle.rows.specs.RowsRead.{row_frame, row_words, word_bytes};
ghost use Rattle.rows.specs.Sides.{side_meant};
ghost use Rattle.row_writing.specs.WordsRow.{words_row};

use rows::limits::{ROW_BITS, ROW_MEMBER, ROW_SIDE, WORD_BYTES, row_frame, row_words};
use rows::sides::Side;
use wire::bytes::{put_u16, put_u32, put_u64};

// length, kind, member and side
fn put_front(out: &mut [u8], at: usize, edition: u16, number: u32, side: Side)
    requires { at + row_head ≤ length out.old }
    ensures { out.new ≡ sets out.old at (le32 (row_frame (edition_of edition)) ++ (le32 number ++ le16 (side_number (side_meant side)))) }
{
    put_u32(out, at, row_frame(edition));
    put_u32(out, at + ROW_MEMBER, number);
    put_u16(out, at + ROW_SIDE, side.number());
}

// two words, from an index on
fn put_two(out: &mut [u8], at: usize, words: &[u64], first: usize)
    requires { (first + 2 ≤ length words.now) × (at + word_bytes * 2 ≤ length out.old) }
    ensures { out.new ≡ sets out.old at (flat_map le64 (take 2 (drop first words.now))) }
{
    put_u64(out, at, words[first]);
    put_u64(out, at + WORD_BYTES, words[first + 1]);
}

// The words of a row, two or four, put one after another: a loop over so few costs more.
fn put_words(out: &mut [u8], at: usize, edition: u16, words: &[u64], first: usize)
    requires { (first + row_words (edition_of edition) ≤ length words.now)
        × (at + word_bytes * row_words (edition_of edition) ≤ length out.old) }
    ensures { out.new ≡ sets out.old at
        (flat_map le64 (take (row_words (edition_of edition)) (drop first words.now))) }
{
    put_two(out, at, words, first);
    if row_words(edition) > 2 {
        put_two(out, at + 2 * WORD_BYTES, words, first + 2);
    }
}

// One row of an edition at an offset, its words standing in a table from an index on.
pub fn write_row(
    out: &mut [u8],
    at: usize,
    edition: u16,
    number: u32,
    side: Side,
    words: &[u64],
    first: usize,
)
    requires { (first + row_words (edition_of edition) ≤ length words.now)
        × (at + row_bytes (edition_of edition) ≤ length out.old) }
    ensures { out.new ≡ sets out.old at (encode_row (edition_of edition)
        (words_row (edition_of edition) (record { number = number; side = side_meant side }) words.now first)) }
{
    put_front(out, at, edition, number, side);
    put_words(out, at + ROW_BITS, edition, words, first);
}
