// The check of a register.
ghost use Rattle.replies.specs.Reply.{call};
ghost use Rattle.replies.specs.Returned.{returned};
ghost use Rattle.register_reply.specs.RegisterReply.{RegisterCall};

use reading::load::load_tree;
use register_reply::give_check;
use replies::pairs::pack;
use tables::groups::Group;
use tables::limits::GROUP_CAPACITY;
use tables::table::Groups;
use wire::refusals::Fault;

pub fn sheet_register(sheet: &[u8], register: &[u8], reply: &mut [u8]) -> u64
    ensures { RegisterCall sheet.now register.now (call reply.old result reply.new) }
{
    pack(check(sheet, register, reply))
}

fn check(sheet: &[u8], register: &[u8], reply: &mut [u8]) -> Result<u32, Fault>
    ensures { RegisterCall sheet.now register.now (call reply.old (returned result) reply.new) }
{
    let mut table = [Group::NONE; GROUP_CAPACITY];
    let head = load_tree(sheet, &mut table)?;
    let groups = Groups {
        table: &table,
        size: head.groups,
    };
    give_check(&groups, head.edition, register, reply)
}
