// One row of the lent bytes: its frame and its fields, and the bits of its membership bytes.
ghost use Rattle.std.specs.Prelude.{◌≡◌, ◌+◌, ◌<◌, ◌*◌, ◌^◌, ◌≤◌, length, true};
ghost use Rattle.laws.specs.Digit.{digit};
ghost use Rattle.wire.specs.Edition.{edition_of, group_limit, membership_bytes};
ghost use Rattle.wire.specs.Member.{is_side, side_of};
ghost use Rattle.wire.specs.MemberKey.{key_member};
ghost use Rattle.rows.specs.RowsRead.{row_gives, front_at, word_bytes, WordAt, word_bits, Above, bit_at};

use crate::limits::{
    ROW_BITS, ROW_MEMBER, ROW_SIDE, WORD_BITS, WORD_BYTES, row_bytes, row_frame, row_words,
};
use crate::sides::Side;
use wire::bytes;
use wire::refusals::Refusal;

// The key of a row's member, whether the row goes on with the member before, the offset of its membership bytes, and the offset
// after the row.
#[derive(Clone, Copy)]
pub struct RowFound {
    pub key: u64,
    pub joined: bool,
    pub bits: usize,
    pub next: usize,
}

// The key of a member: twice its number, and one more on the right.
fn key_of(number: u32, side: u16) -> u64
    requires { is_side side ≡ true }
    ensures { key_member result ≡ record { number = number; side = side_of side } }
{
    2 * (number as u64) + (side as u64) - 1
}

// The row at an offset, behind the member with the key `last`, 0 where no row is before; none where no bytes are left.
pub fn row_at(
    register: &[u8],
    edition: u16,
    at: usize,
    last: u64,
) -> Result<Option<RowFound>, Refusal>
    ensures { row_gives result ≡ front_at (edition_of edition) register.now at (key_member last) }
{
    let whole = row_bytes(edition);
    if register.len() < whole || register.len() - whole < at {
        return if register.len() <= at {
            Ok(None)
        } else {
            Err(Refusal::BadRow)
        };
    }
    if bytes::u32_at(register, at) != row_frame(edition) {
        return Err(Refusal::BadRow);
    }
    let number = bytes::u32_at(register, at + ROW_MEMBER);
    let side = bytes::u16_at(register, at + ROW_SIDE);
    if Side::from_number(side).is_none() {
        return Err(Refusal::BadSide);
    }
    let key = key_of(number, side);
    if number == 0 || key < last {
        return Err(Refusal::MemberOrder);
    }
    Ok(Some(RowFound {
        key,
        joined: key == last,
        bits: at + ROW_BITS,
        next: at + whole,
    }))
}

// Word k of the membership bytes at an offset.
pub fn word_at(register: &[u8], offset: usize, k: u16) -> u64
    requires { offset + word_bytes * (k + 1) ≤ length register.now }
    ensures { WordAt register.now offset k result }
{
    bytes::u64_at(register, offset + WORD_BYTES * (k as usize))
}

// whether a bit of a group above `groups` is set in a word that comes after `before` groups and has such a group
fn word_above(word: u64, before: u16, groups: u16) -> bool
    requires { groups < before + word_bits }
    ensures { Above groups before word_bits (digit word) result }
{
    (word >> groups.saturating_sub(before)) != 0
}

// Whether a bit of a group above `groups` is set in the membership bytes at an offset. Words that have no such bit are passed over.
pub fn bit_above(register: &[u8], edition: u16, offset: usize, groups: u16) -> bool
    requires { offset + membership_bytes (edition_of edition) ≤ length register.now }
    ensures { Above groups 0 (group_limit (edition_of edition)) (bit_at register.now offset) result }
{
    for k in groups / WORD_BITS..row_words(edition) {
        if word_above(word_at(register, offset, k), WORD_BITS * k, groups) {
            return true;
        }
    }
    false
}
