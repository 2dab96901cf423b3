// The verdict on one claim, and the sets that are shown with it.
ghost use Rattle.std.specs.Prelude.{◌≡◌, ◌≤◌, length};
ghost use Rattle.meaning.specs.Place.{lists_ask};
ghost use Rattle.tables.specs.SheetIn.{sheet_in, Tabled};
ghost use Rattle.claim_records.specs.ClaimHeld.{list_as, left_names, right_names, claim_record};
ghost use Rattle.choosing.specs.Chosen.{Asking};
ghost use Rattle.questions.specs.Judged.{Judged};
ghost use Rattle.claims.specs.Decided.{Decided};
ghost use Rattle.claims.specs.Named.{meanings, AskableLists, claim_meant, Askable};

use crate::decision::{Decision, verdict_on};
use crate::names::groups_meant;
use claim_records::claim::{Claim, Lists};
use questions::count::judge_count;
use questions::lists::{ask_lists, is_place};
use runs::starts::start_runs;
use tables::groups::{Group, GroupNo, Groups};
use tables::limits::{GROUP_CAPACITY, LIST};
use tables::names::meant_by;

// most groups in one list of a claim
const LIST_TABLE: usize = LIST as usize;

// Whether some sets that fit answer the claim of kinds 5 to 7 on two lists of names.
fn judge_names(
    sheet: &[u8],
    lists: Lists,
    names: &[Option<GroupNo>],
    groups: &Groups,
    sizes: &mut [u32],
    marks: &mut [u8],
) -> bool
    requires { Asking groups.now.size sizes.old marks.old × AskableLists sheet.now lists names.now groups.now.size }
    ensures { Judged (sheet_in groups.now.table.now groups.now.size)
        (lists_ask (list_as lists.kind) (meanings names.now (left_names sheet.now lists)) (meanings names.now
        (right_names sheet.now lists)))
        sizes.new marks.new result }
{
    let mut left = [GroupNo(0); LIST_TABLE];
    let mut right = [GroupNo(0); LIST_TABLE];
    let m = groups_meant(sheet, lists.at, lists.m, names, &mut left);
    let n = groups_meant(
        sheet,
        lists.at + 2 * lists.m as usize,
        lists.n,
        names,
        &mut right,
    );
    if is_place(lists.kind) && m < lists.m as usize {
        return false; // nobody is in the empty set
    }
    ask_lists(lists.kind, groups, &left[..m], &right[..n], sizes, marks)
}

// Whether some sets that fit answer the claim: they break it (kinds 4 to 6), or have the member that it asks for (kind 7).
fn judge(
    sheet: &[u8],
    claim: Claim,
    names: &[Option<GroupNo>],
    groups: &mut [Group],
    size: u16,
    sizes: &mut [u32],
    marks: &mut [u8],
) -> bool
    requires tabled { Tabled groups.old size }
    requires asking { Asking size sizes.old marks.old × Askable sheet.now claim names.now size }
    ensures judged { Judged (sheet_in groups.old size) (claim_meant names.now (claim_record sheet.now claim))
        sizes.new marks.new result }
    ensures groups_unchanged { groups.new ≡ groups.old }
{
    match claim {
        Claim::Count(count) => judge_count(
            groups,
            size,
            meant_by(names, count.name),
            count.lo,
            count.hi,
            sizes,
            marks,
        ),
        Claim::Lists(lists) => {
            let groups = Groups {
                table: groups,
                size,
            };
            judge_names(sheet, lists, names, &groups, sizes, marks)
        }
    }
}

// The verdict on a claim. Sets that fit and answer it are left in `firsts`, `sizes` and `marks`: with each group the first
// member and the count of a run, and the mark of member 0.
pub fn decide(
    sheet: &[u8],
    claim: Claim,
    names: &[Option<GroupNo>],
    groups: &mut [Group],
    size: u16,
    firsts: &mut [u32],
    sizes: &mut [u32],
    marks: &mut [u8],
) -> Decision
    requires tabled { Tabled groups.old size }
    requires asking { Asking size sizes.old marks.old × Askable sheet.now claim names.now size
        × (size ≤ length firsts.old) }
    ensures decided { Decided (sheet_in groups.old size) (claim_meant names.now (claim_record sheet.now claim))
        firsts.new sizes.new marks.new result }
    ensures groups_unchanged { groups.new ≡ groups.old }
{
    if judge(sheet, claim, names, groups, size, sizes, marks) {
        let mut ends = [0; GROUP_CAPACITY];
        start_runs(
            &Groups {
                table: groups,
                size,
            },
            sizes,
            firsts,
            &mut ends,
        );
        Decision::Shown(verdict_on(claim, true))
    } else {
        Decision::Alone(verdict_on(claim, false))
    }
}
