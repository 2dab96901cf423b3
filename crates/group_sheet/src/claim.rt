// The verdict on one claim.
ghost use Rattle.replies.specs.Reply.{call};
ghost use Rattle.replies.specs.Returned.{returned};
ghost use Rattle.claim_reply.specs.ClaimReply.{ClaimCall};

use claim_reply::give_claim;
use reading::load::load_sheet;
use reading::sheet_tables::Tables;
use replies::pairs::pack;
use wire::refusals::Fault;

pub fn sheet_claim(sheet: &[u8], claim: u32, reply: &mut [u8]) -> u64
    ensures { ClaimCall sheet.now claim (call reply.old result reply.new) }
{
    pack(verdict(sheet, claim, reply))
}

fn verdict(sheet: &[u8], claim: u32, reply: &mut [u8]) -> Result<u32, Fault>
    ensures { ClaimCall sheet.now claim (call reply.old (returned result) reply.new) }
{
    let mut tables = Tables::new();
    let head = load_sheet(
        sheet,
        &mut tables.groups,
        &mut tables.names,
        &mut tables.labels,
        &mut tables.claims,
    )?;
    give_claim(
        sheet,
        head,
        &mut tables.groups,
        &tables.names,
        &tables.claims,
        claim,
        reply,
    )
}
