// A place: a member in all groups of one list and in none of another.
ghost use Rattle.tables.specs.SheetIn.{sheet_in};
ghost use Rattle.choosing.specs.Chosen.{Asking};
ghost use Rattle.questions.specs.Groups.{AllGroups, numbers_of};
ghost use Rattle.questions.specs.Places.{PlaceJudged};

use choosing::choose::choose;
use spans::may::May;
use tables::groups::{GroupNo, Groups};
use tables::limits::GROUP_CAPACITY;

// Whether some sets that fit have a member in all groups of one list and in none of another. It is then member 0 of the sets in
// the tables.
pub fn ask_place(
    groups: &Groups,
    ins: &[GroupNo],
    outs: &[GroupNo],
    sizes: &mut [u32],
    marks: &mut [u8],
) -> bool
    requires asking { Asking groups.now.size sizes.old marks.old }
    requires listed { AllGroups groups.now.size (numbers_of ins.now) × AllGroups groups.now.size (numbers_of outs.now) }
    ensures { PlaceJudged (sheet_in groups.now.table.now groups.now.size) (numbers_of ins.now) (numbers_of outs.now)
        sizes.new marks.new result }
{
    let mut flags = [May::FREE; GROUP_CAPACITY];
    for g in ins {
        flags[g.index()].out = false;
    }
    for h in outs {
        flags[h.index()].inn = false;
    }
    choose(groups, &flags, !ins.is_empty(), sizes, marks)
}
