// Replies: the records of kinds 17 to 20, written into the lent buffer, the pair that a call returns (`pairs`), and the verdict (`verdict`). Each
// writer (`put_..`) says what is read back from its bytes (`specs/Written`), and that no other byte changes (`specs/Wrote`); `give_..` writes a whole
// reply and answers how many bytes it has, or refuses a buffer with no room for it. `specs/Reply` has the refusals and their order, for the contract
// of every operation, `specs/Shown` a verdict with sets, `specs/Alike` what two buffers share. Document 01, "Replies" and "Turned back, in checking
// order".
#![tactic(auto)]

pub mod pairs;
pub mod verdict;

ghost use Rattle.std.specs.Prelude.{◌*◌, ◌≤◌, ◌<◌, ◌+◌, length, ◌≡◌, MatchResult};
ghost use Rattle.wire.specs.declared.refusals.Refusal.TheVariants.{ReplyShort};
ghost use Rattle.wire.specs.Limits.{answer_bytes, verdict_bytes, range_bytes, shown_bytes};
ghost use Rattle.replies.specs.Reply.{call, OnceRoom};
ghost use Rattle.replies.specs.Returned.{returned};
ghost use Rattle.replies.specs.Shown.{VerdictIn};
ghost use Rattle.replies.specs.Written.{U16sPut, AnswerAt, RangeAt, ShownAt, RangesPut, SetsPut};
ghost use Rattle.replies.specs.Wrote.{Wrote};

use crate::verdict::Verdict;
use spans::span::Span;
use wire::bytes::{put_u16, put_u32};
use wire::refusals::{Fault, Refusal};

// Bytes of the records, length field and kind among them: kind 17, 18, 19, 20.
pub const RANGE_BYTES: usize = 20;

pub const VERDICT_BYTES: usize = 6;

pub const SHOWN_BYTES: usize = 14;

const ANSWER_BYTES: usize = 8;

// fields of two bytes, from the front of the buffer on
fn put_u16s(out: &mut [u8], fields: &[u16])
    requires { 2 * length fields.now ≤ length out.old }
    ensures kept { Wrote out.old 0 (2 * length fields.now) out.new }
    ensures put { U16sPut out.new (length fields.now) fields.now }
{
    for (i, field) in fields.iter().enumerate() {
        put_u16(out, 2 * i, *field);
    }
}

// The answer to a register, of kind 20.
fn put_answer(out: &mut [u8], group: u16, rule: u16)
    requires { answer_bytes ≤ length out.old }
    ensures kept { Wrote out.old 0 answer_bytes out.new }
    ensures put { AnswerAt out.new group rule }
{
    put_u16s(out, &[6, 20, group, rule]);
}

// The verdict on a claim, of kind 18.
fn put_verdict(out: &mut [u8], v: Verdict)
    requires { verdict_bytes ≤ length out.old }
    ensures kept { Wrote out.old 0 verdict_bytes out.new }
    ensures put { VerdictIn v out.new }
{
    put_u16s(out, &[4, 18, v.number()]);
}

// A group's range and run, of kind 17.
fn put_range(out: &mut [u8], at: usize, range: Span, first: u32, count: u32)
    requires { at + range_bytes ≤ length out.old }
    ensures kept { Wrote out.old at range_bytes out.new }
    ensures put { RangeAt out.new at range.least range.most first count }
{
    put_u16(out, at, 18);
    put_u16(out, at + 2, 17);
    put_u32(out, at + 4, range.least);
    put_u32(out, at + 8, range.most);
    put_u32(out, at + 12, first);
    put_u32(out, at + 16, count);
}

// A group's run and mark, of kind 19.
fn put_shown(out: &mut [u8], at: usize, first: u32, count: u32, mark: u16)
    requires { at + shown_bytes ≤ length out.old }
    ensures kept { Wrote out.old at shown_bytes out.new }
    ensures put { ShownAt out.new at first count mark }
{
    put_u16(out, at, 12);
    put_u16(out, at + 2, 19);
    put_u32(out, at + 4, first);
    put_u32(out, at + 8, count);
    put_u16(out, at + 12, mark);
}

// The ranges and runs of all groups. Each slice has one entry for each group, `firsts` and `counts` maybe more.
pub fn put_ranges(out: &mut [u8], ranges: &[Span], firsts: &[u32], counts: &[u32])
    requires room { range_bytes * length ranges.now ≤ length out.old }
    requires runs { (length ranges.now ≤ length firsts.now) × (length ranges.now ≤ length counts.now) }
    ensures kept { Wrote out.old 0 (range_bytes * length ranges.now) out.new }
    ensures put { RangesPut out.new (length ranges.now) ranges.now firsts.now counts.now }
{
    for (g, range) in ranges.iter().enumerate() {
        put_range(out, RANGE_BYTES * g, *range, firsts[g], counts[g]);
    }
}

// The runs and marks of all groups, after the verdict. Each slice has one number for each group, `firsts` and `counts` maybe more.
fn put_sets(out: &mut [u8], firsts: &[u32], counts: &[u32], marks: &[u8])
    requires room { verdict_bytes + shown_bytes * length marks.now ≤ length out.old }
    requires runs { (length marks.now ≤ length firsts.now) × (length marks.now ≤ length counts.now) }
    ensures kept { Wrote out.old verdict_bytes (shown_bytes * length marks.now) out.new }
    ensures put { SetsPut out.new (length marks.now) firsts.now counts.now marks.now }
{
    for (g, mark) in marks.iter().enumerate() {
        put_shown(
            out,
            VERDICT_BYTES + SHOWN_BYTES * g,
            firsts[g],
            counts[g],
            u16::from(*mark),
        );
    }
}

// Room for so many bytes, or refusal 14.
pub fn room(reply: &[u8], bytes: usize) -> Result<(), Fault>
    ensures { MatchResult result (λ _. bytes ≤ length reply.now) (λ e. (length reply.now < bytes) × (e ≡ record { refusal = ReplyShort; place = 0 })) }
{
    if reply.len() < bytes {
        return Err(Refusal::ReplyShort.at(0));
    }
    Ok(())
}

// The answer, into a buffer with room for it.
#[tactic(auto, using(crate::proofs::ReplyLaws::once_written))]
pub fn give_answer(reply: &mut [u8], group: u16, rule: u16) -> Result<u32, Fault>
    ensures { OnceRoom answer_bytes (call reply.old (returned result) reply.new) (λ out. AnswerAt out group rule) }
{
    room(reply, ANSWER_BYTES)?;
    put_answer(reply, group, rule);
    Ok(ANSWER_BYTES as u32)
}

// A verdict alone, into a buffer with room for it.
#[tactic(auto, using(crate::proofs::ReplyLaws::once_written))]
pub fn give_alone(reply: &mut [u8], v: Verdict) -> Result<u32, Fault>
    ensures { OnceRoom verdict_bytes (call reply.old (returned result) reply.new) (VerdictIn v) }
{
    room(reply, VERDICT_BYTES)?;
    put_verdict(reply, v); // alone
    Ok(VERDICT_BYTES as u32)
}

// A verdict with sets, into a buffer with room for both. Each slice has one number for each group, `firsts` and `counts` maybe more.
pub fn give_shown(
    reply: &mut [u8],
    v: Verdict,
    firsts: &[u32],
    counts: &[u32],
    marks: &[u8],
) -> Result<u32, Fault>
    requires groups { length marks.now < 65536 }
    requires runs { (length marks.now ≤ length firsts.now) × (length marks.now ≤ length counts.now) }
    ensures { OnceRoom (verdict_bytes + shown_bytes * length marks.now) (call reply.old (returned result) reply.new)
        (λ out. VerdictIn v out × SetsPut out (length marks.now) firsts.now counts.now marks.now) }
{
    let bytes = VERDICT_BYTES + SHOWN_BYTES * marks.len();
    room(reply, bytes)?;
    put_verdict(reply, v); // with sets
    put_sets(reply, firsts, counts, marks);
    Ok(bytes as u32)
}
