// The rows of a register, written as rows of an edition: member, side and groups as they stand.
ghost use Rattle.std.specs.Prelude.{◌≡◌, ◌+◌, ◌*◌, ◌≤◌, length, drop};
ghost use Rattle.std.proofs.lemmas.List.Edits.{sets};
ghost use Rattle.wire.specs.U64.{u64_at};
ghost use Rattle.wire.specs.Edition.{edition_of, row_bytes};
ghost use Rattle.wire.specs.RegisterFormat.{row_of};
ghost use Rattle.wire.specs.Encoding.{encode_row, encode_register};
ghost use Rattle.wire.specs.Conversion.{row_in, rows_in};
ghost use Rattle.rows.specs.RowsRead.{rows_before, word_bytes, RowThere, RowsThere};

use row_writing::write_row;
use rows::limits::{ROW_BITS, ROW_MEMBER, ROW_SIDE, WORD_BYTES, row_bytes, row_words};
use rows::sides::Side;
use wire::bytes::{u16_at, u32_at, u64_at};

// word k of the membership bytes of the row at an offset, 0 where its edition has none
fn word_of(register: &[u8], at: usize, edition: u16, k: u16) -> u64
    requires { RowThere (edition_of edition) register.now at }
    ensures { result ≡ u64_at (row_of (edition_of edition) (drop at register.now)).bits (word_bytes * k) }
{
    if k < row_words(edition) {
        u64_at(register, at + ROW_BITS + WORD_BYTES * k as usize)
    } else {
        0
    }
}

// the row of one edition at an offset, written as a row of another at an offset of the reply
fn put_row_in(out: &mut [u8], to: usize, edition: u16, register: &[u8], at: usize, from: u16)
    requires { RowThere (edition_of from) register.now at × (to + row_bytes (edition_of edition) ≤ length out.old) }
    ensures { out.new ≡ sets out.old to (encode_row (edition_of edition)
        (row_in (edition_of edition) (row_of (edition_of from) (drop at register.now)))) }
{
    // the words of the widest row
    let words = [
        word_of(register, at, from, 0),
        word_of(register, at, from, 1),
        word_of(register, at, from, 2),
        word_of(register, at, from, 3),
    ];
    let number = u32_at(register, at + ROW_MEMBER);
    let Some(side) = Side::from_number(u16_at(register, at + ROW_SIDE)) else {
        unreachable!();
    };
    write_row(out, to, edition, number, side, &words, 0);
}

// The first n rows, from the front of the reply on.
pub fn put_rows_in(out: &mut [u8], edition: u16, register: &[u8], from: u16, n: usize)
    requires { RowsThere (edition_of from) register.now n × (row_bytes (edition_of edition) * n ≤ length out.old) }
    ensures { out.new ≡ sets out.old 0 (encode_register (edition_of edition)
        (rows_in (edition_of edition) (rows_before (edition_of from) register.now n))) }
{
    let step = row_bytes(edition);
    let stride = row_bytes(from);
    for i in 0..n {
        put_row_in(out, step * i, edition, register, stride * i, from);
    }
}
