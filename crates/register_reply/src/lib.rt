// The reply to `sheet_register` under a sheet that was read: the register's refusal, or the answer of its check.
// `specs/RegisterReply` writes the operation down.
// Document 01, "Registers", "Replies", refusals 10 to 14; document 02, card 4 (15).
#![tactic(auto)]

ghost use Rattle.wire.specs.Edition.{edition_of};
ghost use Rattle.tables.specs.SheetIn.{sheet_in};
ghost use Rattle.replies.specs.Reply.{call};
ghost use Rattle.replies.specs.Returned.{returned};
ghost use Rattle.register_reply.specs.RegisterReply.{Register};

use registers::check::check_register;
use replies::give_answer;
use tables::groups::Groups;
use tables::limits::GROUP_NUMBERS;
use wire::refusals::Fault;

// The reply under a sheet of this edition with these groups.
pub fn give_check(
    groups: &Groups,
    edition: u16,
    register: &[u8],
    reply: &mut [u8],
) -> Result<u32, Fault>
    ensures { Register register.now (edition_of edition) (sheet_in groups.now.table.now groups.now.size)
        (call reply.old (returned result) reply.new) }
{
    let mut counts = [0u32; GROUP_NUMBERS];
    match check_register(groups, edition, register, &mut counts)? {
        Some(broken) => give_answer(reply, broken.group.0, broken.rule.number()),
        None => give_answer(reply, 0, 0),
    }
}
