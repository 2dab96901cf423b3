// The refusals by name: document 01, "Turned back, in checking order"; document 02, cards 4 (15) and 6 (16, 17). `tests/header` holds them to the header.
ghost use Rattle.std.specs.Prelude.{◌≡◌};
ghost use Rattle.wire.specs.Refusals.{refusal_number};

// In the header's order, each with its number.
#[derive(Clone, Copy, PartialEq, Eq)]
pub enum Refusal {
    Cut = 1,
    WrongKind = 2,
    WrongLength = 3,
    FieldRange = 4,
    BadReference = 5,
    LabelTwice = 6,
    Trailing = 7,
    ManyGroups = 16,
    LongLabel = 17,
    Impossible = 8,
    NoSuchClaim = 9,
    TooManyRows = 10,
    BadRow = 11,
    BadSide = 15,
    MemberOrder = 12,
    BitAbove = 13,
    ReplyShort = 14,
}

impl Refusal {
    pub fn number(self) -> u32
        ensures { result ≡ refusal_number self }
    {
        self as u32
    }

    // the refusal, met by the record or row of this number
    pub fn at(self, place: u32) -> Fault
        ensures { result ≡ record { refusal = self; place = place } }
    {
        Fault {
            refusal: self,
            place,
        }
    }
}

// A refusal with the number of the record or row that meets it, 0 where it is no record's.
#[derive(Clone, Copy, PartialEq, Eq)]
pub struct Fault {
    pub refusal: Refusal,
    pub place: u32,
}
