// The reply to `sheet_claim` under a sheet that was read: the verdict, with sets where some answer the claim, or a refusal.
// `specs/ClaimReply` writes the operation down, `specs/Asked` what the tables hold, `specs/Settled` what the contract leaves open.
// Document 01, "Meaning", "The arrangement" (denials), "Replies", refusals 8, 9 and 14; document 02, card 1.
#![tactic(auto)]

ghost use Rattle.std.specs.Prelude.{◌≡◌, ℕ, List};
ghost use Rattle.wire.specs.Record.{read};
ghost use Rattle.wire.specs.SheetFormat.{Records, read_sheet};
ghost use Rattle.tables.specs.SheetIn.{sheet_in, Tabled};
ghost use Rattle.claim_records.specs.ClaimHeld.{claim_record};
ghost use Rattle.records.specs.Answers.{head_record};
ghost use Rattle.replies.specs.Reply.{call};
ghost use Rattle.replies.specs.Returned.{returned};
ghost use Rattle.claims.specs.Named.{Askable, claim_meant};
ghost use Rattle.claim_reply.specs.Asked.{Asked};
ghost use Rattle.claim_reply.specs.ClaimReply.{VerdictFor, ClaimVerdict};

use claim_records::claim::Claim;
use claims::decide::decide;
use claims::decision::Decision;
use measuring::fitting::some_fit;
use records::record::Head;
use replies::{give_alone, give_shown};
use tables::groups::{Group, GroupNo, Groups};
use tables::limits::GROUP_CAPACITY;
use wire::refusals::{Fault, Refusal};

// The verdict on a claim, with sets where some answer it, into a buffer with room for this verdict.
fn give_verdict(
    sheet: &[u8],
    claim: Claim,
    names: &[Option<GroupNo>],
    groups: &mut [Group],
    size: u16,
    reply: &mut [u8],
) -> Result<u32, Fault>
    requires tabled { Tabled groups.old size }
    requires askable { Askable sheet.now claim names.now size }
    ensures verdict { VerdictFor (sheet_in groups.old size) (claim_meant names.now (claim_record sheet.now claim))
        (call reply.old (returned result) reply.new) }
    ensures groups_unchanged { groups.new ≡ groups.old }
{
    let mut firsts = [0u32; GROUP_CAPACITY];
    let mut sizes = [0u32; GROUP_CAPACITY];
    let mut marks = [0u8; GROUP_CAPACITY];
    let decision = decide(
        sheet,
        claim,
        names,
        groups,
        size,
        &mut firsts,
        &mut sizes,
        &mut marks,
    );
    let size = size as usize;
    match decision {
        Decision::Alone(verdict) => give_alone(reply, verdict),
        Decision::Shown(verdict) => give_shown(reply, verdict, &firsts, &sizes, &marks[..size]),
    }
}

// The reply under a sheet whose records are in the tables.
pub fn give_claim(
    sheet: &[u8],
    head: Head,
    groups: &mut [Group],
    names: &[Option<GroupNo>],
    claims: &[Claim],
    claim: u32,
    reply: &mut [u8],
) -> Result<u32, Fault>
    requires { (labels : List ℕ) × Asked (head_record head) sheet.now
        (record { groups = groups.old; names = names.now; labels = labels; claims = claims.now }) }
    ensures verdict { (d : Records) → read_sheet sheet.now ≡ read d → ClaimVerdict claim d (call reply.old (returned result) reply.new) }
    ensures groups_unchanged { groups.new ≡ groups.old }
{
    let all = Groups {
        table: groups,
        size: head.groups,
    };
    if !some_fit(&all) {
        return Err(Refusal::Impossible.at(0));
    }
    if claim == 0 || (head.claims as u32) < claim {
        return Err(Refusal::NoSuchClaim.at(0));
    }
    let asked = claims[claim as usize - 1];
    give_verdict(sheet, asked, names, groups, head.groups, reply)
}
