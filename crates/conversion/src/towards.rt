// Whether the records of a sheet may stand in a sheet of an edition: refusals 16 and 17.
ghost use Rattle.wire.specs.Edition.{edition_of};
ghost use Rattle.records.specs.Answers.{head_record};
ghost use Rattle.conversion.specs.TowardsIn.{Labelled, TowardsAs};

use labels::used::label_of;
use records::record::Head;
use wire::edition::{group_limit, label_limit};
use wire::refusals::{Fault, Refusal};

// Groups are counted before any label is measured.
pub fn may_go(sheet: &[u8], head: Head, labels: &[usize], edition: u16) -> Result<(), Fault>
    requires { Labelled (head_record head) sheet.now labels.now }
    ensures { TowardsAs (edition_of edition) (head_record head) sheet.now labels.now result }
{
    if group_limit(edition) < head.groups {
        return Err(Refusal::ManyGroups.at(0));
    }
    let longest = label_limit(edition) as usize;
    let first = 2 + head.groups as u32;
    for (j, at) in labels[..head.names as usize].iter().enumerate() {
        if longest < label_of(sheet, *at).len() {
            return Err(Refusal::LongLabel.at(first + j as u32));
        }
    }
    Ok(())
}
