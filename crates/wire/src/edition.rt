// What an edition sets, by its number in a head.
ghost use Rattle.std.specs.Prelude.{◌≡◌, eqb, ℕ};
ghost use Rattle.wire.specs.Edition.{Edition, edition1, edition2, edition_number, edition_of, group_limit, label_limit, row_kind, row_length};

pub const EDITION_1: u16 = 1;

pub const EDITION_2: u16 = 2;

// whether an edition has the number
pub fn is_edition(edition: u16) -> bool
    ensures { result ≡ eqb edition (edition_number (edition_of edition)) }
{
    edition == EDITION_2 || edition == EDITION_1
}

// the number of two that the edition sets
fn set_by(edition: u16, first: u16, second: u16) -> u16
    ensures { (set : Edition → ℕ) → set edition1 ≡ first → set edition2 ≡ second → result ≡ set (edition_of edition) }
{
    if edition == EDITION_2 { second } else { first }
}

// most groups of a sheet
pub fn group_limit(edition: u16) -> u16
    ensures { result ≡ group_limit (edition_of edition) }
{
    set_by(edition, 128, 256)
}

// most bytes of a label
pub fn label_limit(edition: u16) -> u16
    ensures { result ≡ label_limit (edition_of edition) }
{
    set_by(edition, 16, 32)
}

// the kind of a row
pub fn row_kind(edition: u16) -> u16
    ensures { result ≡ row_kind (edition_of edition) }
{
    set_by(edition, 33, 34)
}

// the length of a row, which counts all that follows it
pub fn row_length(edition: u16) -> u16
    ensures { result ≡ row_length (edition_of edition) }
{
    set_by(edition, 24, 40)
}
