// The reply to `sheet_ranges` under a sheet that was read: ranges with an arrangement, or a refusal.
// `specs/RangesReply` writes the operation down, `specs/Planning` what planners read off its reply (document 02, card 13).
// Document 01, "Ranges", "The arrangement", "Replies", refusals 8 and 14.
#![tactic(auto)]

ghost use Rattle.tables.specs.SheetIn.{sheet_in};
ghost use Rattle.measuring.specs.Done.{Lent};
ghost use Rattle.replies.specs.Reply.{call};
ghost use Rattle.replies.specs.Returned.{returned};
ghost use Rattle.range_reply.specs.RangesGiven.{RangesReady, RangesWritten};
ghost use Rattle.range_reply.specs.RangesReply.{Ranges};

use measuring::fitting::measure;
use ranging::arrange::arrange;
use ranging::narrow::narrow;
use replies::{RANGE_BYTES, put_ranges, room};
use spans::pair::Pair;
use spans::span::Span;
use tables::groups::Groups;
use tables::limits::GROUP_CAPACITY;
use wire::refusals::{Fault, Refusal};

// The ranges and the arrangement of a possible sheet, into a buffer with room for them.
fn put(groups: &Groups, spans: &[Pair], after: &[Pair], reply: &mut [u8])
    requires lent { Lent groups.now.size spans.now after.now }
    requires ready { RangesReady groups.now.table.now groups.now.size spans.now after.now reply.old }
    ensures { RangesWritten groups.now.table.now groups.now.size reply.old reply.new }
{
    let mut ranges = [Span::NOTHING; GROUP_CAPACITY];
    let mut rest = [Span::NOTHING; GROUP_CAPACITY];
    narrow(groups, spans, after, &mut ranges, &mut rest);
    let mut sizes = [0u32; GROUP_CAPACITY];
    let mut firsts = [0u32; GROUP_CAPACITY];
    let mut ends = [0u32; GROUP_CAPACITY];
    arrange(groups, spans, after, &mut sizes, &mut firsts, &mut ends);
    put_ranges(reply, &ranges[..groups.size as usize], &firsts, &sizes);
}

// The reply under a sheet with these groups.
pub fn give_ranges(groups: &Groups, reply: &mut [u8]) -> Result<u32, Fault>
    ensures { Ranges (sheet_in groups.now.table.now groups.now.size) (call reply.old (returned result) reply.new) }
{
    let mut spans = [Pair::ZERO; GROUP_CAPACITY];
    let mut after = [Pair::ZERO; GROUP_CAPACITY];
    if !measure(groups, &mut spans, &mut after) {
        return Err(Refusal::Impossible.at(0));
    }
    let bytes = RANGE_BYTES * groups.size as usize;
    room(reply, bytes)?;
    put(groups, &spans, &after, reply);
    Ok(bytes as u32)
}
