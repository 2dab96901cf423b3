// Claims of kind 4 (count): the claim is broken where the sheet with one bound narrowed is possible.
ghost use Rattle.std.specs.Prelude.{◌≡◌, ◌≤◌};
ghost use Rattle.wire.specs.Limits.{no_end};
ghost use Rattle.meaning.specs.Claim.{counted};
ghost use Rattle.meaning.specs.Place.{all_say};
ghost use Rattle.meaning.specs.Sheet.{end_of, Top};
ghost use Rattle.tables.specs.Names.{meant_number, Numbered};
ghost use Rattle.tables.specs.SheetIn.{sheet_in, Tabled};
ghost use Rattle.choosing.specs.Chosen.{Asking};
ghost use Rattle.questions.specs.Counts.{Sized, Any, Between, CountUnder, CountOver};
ghost use Rattle.questions.specs.Judged.{Judged};

use crate::places::ask_place;
use tables::groups::{Group, GroupNo, Groups};
use tables::limits::NO_END;

// whether some sets fit: they have a place for a member of whom nothing is asked
fn any_sets(groups: &Groups, sizes: &mut [u32], marks: &mut [u8]) -> bool
    requires { Asking groups.now.size sizes.old marks.old }
    ensures { Sized (sheet_in groups.now.table.now groups.now.size) Any sizes.new marks.new result }
{
    ask_place(groups, &[], &[], sizes, marks)
}

// Whether some sets that fit have from `least` to `most` members in a group, `NO_END` for no upper end. The group has these
// bounds for the time of the question.
fn sets_between(
    groups: &mut [Group],
    size: u16,
    g: GroupNo,
    least: u16,
    most: u16,
    sizes: &mut [u32],
    marks: &mut [u8],
) -> bool
    requires tabled { Tabled groups.old size }
    requires asked { Asking size sizes.old marks.old × (1 ≤ g.0) × (g.0 ≤ size) }
    ensures sized { Sized (sheet_in groups.old size) (Between g.0 least (end_of no_end most)) sizes.new marks.new result }
    ensures groups_unchanged { groups.new ≡ groups.old }
{
    let i = g.index();
    let own = groups[i];
    groups[i] = Group {
        parent: own.parent,
        lo: own.lo.max(least),
        hi: own.hi.min(most),
        mode: own.mode,
    };
    let found = any_sets(
        &Groups {
            table: groups,
            size,
        },
        sizes,
        marks,
    );
    groups[i] = own;
    found
}

// whether some sets that fit have fewer than lo members in a group
fn under(
    groups: &mut [Group],
    size: u16,
    g: GroupNo,
    lo: u16,
    sizes: &mut [u32],
    marks: &mut [u8],
) -> bool
    requires tabled { Tabled groups.old size }
    requires asked { Asking size sizes.old marks.old × (1 ≤ g.0) × (g.0 ≤ size) }
    ensures sized { Sized (sheet_in groups.old size) (CountUnder g.0 lo) sizes.new marks.new result }
    ensures groups_unchanged { groups.new ≡ groups.old }
{
    lo != 0 && sets_between(groups, size, g, 0, lo - 1, sizes, marks)
}

// whether some sets that fit have more members in a group than hi, `NO_END` for no upper end
fn over(
    groups: &mut [Group],
    size: u16,
    g: GroupNo,
    hi: u16,
    sizes: &mut [u32],
    marks: &mut [u8],
) -> bool
    requires tabled { Tabled groups.old size }
    requires asked { Asking size sizes.old marks.old × (1 ≤ g.0) × (g.0 ≤ size) }
    ensures sized { Sized (sheet_in groups.old size) (CountOver g.0 (end_of no_end hi)) sizes.new marks.new result }
    ensures groups_unchanged { groups.new ≡ groups.old }
{
    hi != NO_END && sets_between(groups, size, g, hi + 1, NO_END, sizes, marks)
}

// Whether some sets that fit break the claim that a group has from lo to hi members.
fn judge_group(
    groups: &mut [Group],
    size: u16,
    g: GroupNo,
    lo: u16,
    hi: u16,
    sizes: &mut [u32],
    marks: &mut [u8],
) -> bool
    requires tabled { Tabled groups.old size }
    requires asked { Asking size sizes.old marks.old × (1 ≤ g.0) × (g.0 ≤ size) }
    ensures judged { Judged (sheet_in groups.old size) (all_say (counted g.0 lo (end_of no_end hi))) sizes.new marks.new result }
    ensures groups_unchanged { groups.new ≡ groups.old }
{
    under(groups, size, g, lo, sizes, marks) || over(groups, size, g, hi, sizes, marks)
}

// Whether some sets that fit break the claim that the empty set has lo members or more.
fn judge_empty(groups: &Groups, lo: u16, sizes: &mut [u32], marks: &mut [u8]) -> bool
    requires { Asking groups.now.size sizes.old marks.old }
    ensures { (hi : Top) → Judged (sheet_in groups.now.table.now groups.now.size) (all_say (counted 0 lo hi)) sizes.new marks.new result }
{
    lo != 0 && any_sets(groups, sizes, marks)
}

// Whether some sets that fit break the claim that what a name means has from lo to hi members.
pub fn judge_count(
    groups: &mut [Group],
    size: u16,
    meant: Option<GroupNo>,
    lo: u16,
    hi: u16,
    sizes: &mut [u32],
    marks: &mut [u8],
) -> bool
    requires tabled { Tabled groups.old size }
    requires asked { Asking size sizes.old marks.old × Numbered meant × (meant_number meant ≤ size) }
    ensures judged { Judged (sheet_in groups.old size) (all_say (counted (meant_number meant) lo (end_of no_end hi)))
        sizes.new marks.new result }
    ensures groups_unchanged { groups.new ≡ groups.old }
{
    match meant {
        None => judge_empty(
            &Groups {
                table: groups,
                size,
            },
            lo,
            sizes,
            marks,
        ),
        Some(g) => judge_group(groups, size, g, lo, hi, sizes, marks),
    }
}
