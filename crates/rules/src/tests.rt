// The tests of the six rules: whether a rule can be broken at a group, which members of a word break it, whether some member of a block or
// a count does.
ghost use Rattle.std.specs.Prelude.{◌≡◌, ◌+◌, ◌*◌, ◌≤◌, ◌<◌, length, get_or};
ghost use Rattle.tables.specs.Groups.{parent_in};
ghost use Rattle.columns.specs.Columns.{block_members};
ghost use Rattle.sons.specs.SonSteps.{several_sons};
ghost use Rattle.rules.specs.Asked.{WordAsked, BlockAsked};
ghost use Rattle.rules.specs.Joins.{asks_sons};
ghost use Rattle.rules.specs.RuleTests.{may_break, MembersPassing, member_breaks, SomeMember, count_breaks};

use crate::joins::SonColumns;
use columns::limits::BLOCK_WORDS;
use columns::table::Columns;
use sons::lists::Sons;
use tables::groups::{Group, GroupNo};
use tables::limits::NO_END;
use tables::modes::Mode;

// whether one of the rules 1 to 4 can be broken at a group with the parent p
pub fn may_break(groups: &[Group], sons: &Sons, g: GroupNo, p: GroupNo, rule: u16) -> bool
    requires { (1 ≤ g.0) × (g.0 ≤ length groups.now) × (p.0 < g.0) × (p.0 ≡ parent_in groups.now g.0) }
    ensures { result ≡ may_break groups.now (several_sons sons.now.starts.now g.0) g.0 rule }
{
    match rule {
        1 => 0 < p.0,
        2 => 0 < p.0 && groups[p.index()].mode.is_same(),
        3 => groups[g.index()].mode.is_cover(),
        _ => groups[g.index()].mode.is_disjoint() && sons.several(g),
    }
}

// the members of a word that break one of the rules 1 to 4 at a group, where the rule can be broken
fn breaking(
    rule: u16,
    columns: &Columns,
    joined: &SonColumns,
    w: usize,
    g: GroupNo,
    p: GroupNo,
) -> u64
    requires { WordAsked joined.now.some.now joined.now.two.now w g.0 p.0 }
    ensures { MembersPassing (member_breaks rule columns.now.words.now joined.now.some.now joined.now.two.now g.0 p.0) w result }
{
    match rule {
        1 => columns.word(g, w) & !columns.word(p, w),
        2 => columns.word(p, w) & !columns.word(g, w),
        3 => columns.word(g, w) & !joined.some[w],
        _ => joined.two[w],
    }
}

// whether some member of a block does
pub fn block_breaks(
    rule: u16,
    columns: &Columns,
    joined: &SonColumns,
    b: usize,
    g: GroupNo,
    p: GroupNo,
) -> bool
    requires { BlockAsked joined.now.some.now joined.now.two.now b g.0 p.0 }
    ensures { SomeMember (member_breaks rule columns.now.words.now joined.now.some.now joined.now.two.now g.0 p.0) (block_members * b)
        (block_members * (b + 1)) result }
{
    let mut broken = 0;
    for w in BLOCK_WORDS * b..BLOCK_WORDS * (b + 1) {
        broken |= breaking(rule, columns, joined, w, g, p);
    }
    broken != 0
}

// whether a group's count breaks rule 5 or rule 6
pub fn count_breaks(groups: &[Group], counts: &[u32], g: GroupNo, rule: u16) -> bool
    requires { (1 ≤ g.0) × (g.0 ≤ length groups.now) × (g.0 < length counts.now) }
    ensures { result ≡ count_breaks groups.now (get_or counts.now g.0 0) g.0 rule }
{
    let group = groups[g.index()];
    let count = counts[g.0 as usize];
    match rule {
        5 => count < group.lo as u32,
        _ => group.hi != NO_END && (group.hi as u32) < count,
    }
}

// whether rule 3 or rule 4 asks for a group's sons
pub fn asks_sons(mode: Mode, several: bool) -> bool
    ensures { result ≡ asks_sons mode.0 several }
{
    mode.is_cover() || mode.is_disjoint() && several
}
