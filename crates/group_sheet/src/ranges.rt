// Ranges with an arrangement.
ghost use Rattle.replies.specs.Reply.{call};
ghost use Rattle.replies.specs.Returned.{returned};
ghost use Rattle.range_reply.specs.RangesReply.{RangesCall};

use range_reply::give_ranges;
use reading::load::load_tree;
use replies::pairs::pack;
use tables::groups::Group;
use tables::limits::GROUP_CAPACITY;
use tables::table::Groups;
use wire::refusals::Fault;

pub fn sheet_ranges(sheet: &[u8], reply: &mut [u8]) -> u64
    ensures { RangesCall sheet.now (call reply.old result reply.new) }
{
    pack(ranges(sheet, reply))
}

fn ranges(sheet: &[u8], reply: &mut [u8]) -> Result<u32, Fault>
    ensures { RangesCall sheet.now (call reply.old (returned result) reply.new) }
{
    let mut table = [Group::NONE; GROUP_CAPACITY];
    let head = load_tree(sheet, &mut table)?;
    let groups = Groups {
        table: &table,
        size: head.groups,
    };
    give_ranges(&groups, reply)
}
