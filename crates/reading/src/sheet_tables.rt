// The tables that keep a sheet.
ghost use Rattle.std.specs.Prelude.{◌≡◌};

use claim_records::claim::Claim;
use tables::groups::{Group, GroupNo};
use tables::limits::{CLAIM_TABLE, GROUP_CAPACITY, NAME_TABLE};

// The groups, what each name means, the offsets of the names' records in the sheet, and the claims; as many of each as the head says.
#[derive(Drop)]
pub struct Tables {
    pub groups: [Group; GROUP_CAPACITY],
    pub names: [Option<GroupNo>; NAME_TABLE],
    pub labels: [usize; NAME_TABLE],
    pub claims: [Claim; CLAIM_TABLE],
}

impl Tables {
    ghost use Rattle.reading.specs.NoSheet.{no_tables};

    // with no group, name or claim
    pub fn new() -> Tables
        ensures { result ≡ no_tables }
    {
        Tables {
            groups: [Group::NONE; GROUP_CAPACITY],
            names: [None; NAME_TABLE],
            labels: [0; NAME_TABLE],
            claims: [Claim::NONE; CLAIM_TABLE],
        }
    }
}
