// Claims of kinds 5 to 7 (inside, apart, place) on two lists of groups. A member that breaks a claim of kind 5 or 6 is in one of
// the left groups, and in none of the right ones (inside) or in one of them (apart): these are asked group by group of the left
// list. One for kind 7 is in all of the left groups at once and in none of the right ones.
ghost use Rattle.std.specs.Prelude.{◌≡◌};
ghost use Rattle.wire.specs.SheetFormat.{inside, apart};
ghost use Rattle.tables.specs.SheetIn.{sheet_in};
ghost use Rattle.claim_records.specs.ClaimHeld.{list_as};
ghost use Rattle.choosing.specs.Chosen.{Asking};
ghost use Rattle.questions.specs.Groups.{AllGroups, numbers_of};
ghost use Rattle.questions.specs.Ways.{Tried, is_place};

use crate::places::ask_place;
use claim_records::claim::ListKind;
use tables::groups::{GroupNo, Groups};

// whether some sets that fit have a member in some group of the left list and in none of the right list
fn ask_inside(
    groups: &Groups,
    left: &[GroupNo],
    right: &[GroupNo],
    sizes: &mut [u32],
    marks: &mut [u8],
) -> bool
    requires asking { Asking groups.now.size sizes.old marks.old }
    requires listed { AllGroups groups.now.size (numbers_of left.now) × AllGroups groups.now.size (numbers_of right.now) }
    ensures { Tried (sheet_in groups.now.table.now groups.now.size) inside (numbers_of left.now) (numbers_of right.now)
        sizes.new marks.new result }
{
    for &g in left {
        if ask_place(groups, &[g], right, sizes, marks) {
            return true;
        }
    }
    false
}

// whether some sets that fit have a member in some group of the left list and in some group of the right list
fn ask_apart(
    groups: &Groups,
    left: &[GroupNo],
    right: &[GroupNo],
    sizes: &mut [u32],
    marks: &mut [u8],
) -> bool
    requires asking { Asking groups.now.size sizes.old marks.old }
    requires listed { AllGroups groups.now.size (numbers_of left.now) × AllGroups groups.now.size (numbers_of right.now) }
    ensures { Tried (sheet_in groups.now.table.now groups.now.size) apart (numbers_of left.now) (numbers_of right.now)
        sizes.new marks.new result }
{
    for &g in left {
        for &h in right {
            if ask_place(groups, &[g, h], &[], sizes, marks) {
                return true;
            }
        }
    }
    false
}

// Whether some sets that fit answer the claim of a kind on the left groups and the right groups.
pub fn ask_lists(
    kind: ListKind,
    groups: &Groups,
    left: &[GroupNo],
    right: &[GroupNo],
    sizes: &mut [u32],
    marks: &mut [u8],
) -> bool
    requires asking { Asking groups.now.size sizes.old marks.old }
    requires listed { AllGroups groups.now.size (numbers_of left.now) × AllGroups groups.now.size (numbers_of right.now) }
    ensures { Tried (sheet_in groups.now.table.now groups.now.size) (list_as kind) (numbers_of left.now) (numbers_of right.now)
        sizes.new marks.new result }
{
    match kind {
        ListKind::Inside => ask_inside(groups, left, right, sizes, marks),
        ListKind::Apart => ask_apart(groups, left, right, sizes, marks),
        ListKind::Place => ask_place(groups, left, right, sizes, marks),
    }
}

// whether a claim of the kind asks for a member of every left set
pub fn is_place(kind: ListKind) -> bool
    ensures { result ≡ is_place (list_as kind) }
{
    matches!(kind, ListKind::Place)
}
