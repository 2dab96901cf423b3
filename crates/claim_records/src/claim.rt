// A claim as the reader hands it up, and as the table of claims keeps it. An enum can't hold an array, so lists of names are carried by where
// they stand.
ghost use Rattle.std.specs.Prelude.{◌≡◌, ℕ, List, length};

use tables::names::NameNo;

// Kind 4: the set of a name has from lo to hi members, 65535 for no upper end.
#[derive(Clone, Copy)]
pub struct Count {
    pub name: NameNo,
    pub lo: u16,
    pub hi: u16,
}

// Kinds 5, 6 and 7.
#[derive(Clone, Copy)]
pub enum ListKind {
    Inside = 5,
    Apart = 6,
    Place = 7,
}

impl ListKind {
    ghost use Rattle.wire.specs.SheetFormat.{list_kind_of};
    ghost use Rattle.claim_records.specs.ClaimHeld.{list_read};

    // the kind of a number from 5 to 7
    #[tactic(auto, unfolding(wire::specs::SheetFormat::list_kind_of))]
    pub fn of_number(kind: u16) -> ListKind
        ensures { result ≡ list_read (list_kind_of kind) }
    {
        match kind {
            5 => ListKind::Inside,
            6 => ListKind::Apart,
            _ => ListKind::Place,
        }
    }
}

// A claim of these kinds: m left names and then n right names, two bytes each, from the offset `at` of the sheet on.
#[derive(Clone, Copy)]
pub struct Lists {
    pub kind: ListKind,
    pub m: u16,
    pub n: u16,
    pub at: usize,
}

#[derive(Clone, Copy)]
pub enum Claim {
    Count(Count),
    Lists(Lists),
}

impl Claim {
    ghost use Rattle.wire.specs.Encoding.{encode_claim};
    ghost use Rattle.claim_records.specs.ClaimHeld.{claim_record};

    // what a table has where no claim was read
    pub const NONE: Claim = Claim::Count(Count {
        name: NameNo(0),
        lo: 0,
        hi: 0,
    });

    // how many bytes its record has
    pub fn bytes(self) -> usize
        ensures { (s : List ℕ) → result ≡ length (encode_claim (claim_record s self)) }
    {
        match self {
            Claim::Count(_) => 10,
            Claim::Lists(lists) => 8 + 2 * (lists.m as usize + lists.n as usize),
        }
    }
}
