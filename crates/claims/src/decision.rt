// The verdict on a claim that sets answer or that none answer.
ghost use Rattle.std.specs.Prelude.{◌≡◌, List, ℕ, Option};
ghost use Rattle.tables.specs.declared.groups.GroupNo.{GroupNo};
ghost use Rattle.claim_records.specs.ClaimHeld.{claim_record};
ghost use Rattle.claims.specs.Decided.{asks_place, verdict_on};
ghost use Rattle.claims.specs.Named.{claim_meant};

use claim_records::claim::Claim;
use questions::lists::is_place;
use replies::verdict::Verdict;

// A verdict with sets in the tables that answer the claim, or alone.
#[derive(Clone, Copy)]
pub enum Decision {
    Shown(Verdict),
    Alone(Verdict),
}

// whether the claim is of kind 7
fn asks_place(claim: Claim) -> bool
    ensures { result ≡ asks_place claim }
{
    match claim {
        Claim::Count(_) => false,
        Claim::Lists(lists) => is_place(lists.kind),
    }
}

// The verdict on a claim, with sets that answer it (true) or where none do: these have the member that kind 7 asks for, and break
// a claim of another kind.
pub fn verdict_on(claim: Claim, answered: bool) -> Verdict
    ensures { (sheet : List ℕ) (names : List (Option GroupNo)) → result ≡ verdict_on (claim_meant names (claim_record sheet claim)) answered }
{
    if asks_place(claim) == answered {
        Verdict::Holds
    } else {
        Verdict::Denied
    }
}
