// A group is measured from its sons, and the sons, one after another, from their own. The chain of calls follows the tree
// down: at most two frames for each group on the way.
ghost use Rattle.std.specs.Prelude.{◌≡◌, ◌≤◌, length};
ghost use Rattle.meaning.specs.Sheet.{Group};
ghost use Rattle.tables.specs.SheetIn.{sheet_in};
ghost use Rattle.spans.specs.Held.{pair_of, AlikeBoth};
ghost use Rattle.measuring.specs.Done.{Lent, Done, Spanned, AllDone};
ghost use Rattle.measuring.specs.Links.{Chained};
ghost use Rattle.measuring.specs.Tables.{may_in, spans_in};
ghost use Rattle.sizes.specs.Fold as fold;

use crate::links::{Links, link_sons};
use spans::kind::Kind;
use spans::may::May;
use spans::pair::Pair;
use tables::groups::{GroupNo, Groups};
use tables::limits::GROUP_CAPACITY;

// What measuring reads: the groups, where one member may be in each, and the chains of their sons.
#[derive(Clone, Copy)]
struct Reading<'a> {
    groups: &'a Groups<'a>,
    flags: &'a [May],
    links: Links<'a>,
    ghost flagged: { groups.now.size ≤ length flags.now },
    ghost linked: { (groups.now.size ≤ length links.last.now) × (groups.now.size ≤ length links.prev.now) },
    ghost chained: { let s = sheet_in groups.now.table.now groups.now.size in Chained s links.last.now links.prev.now s.size },
}

// whether the sons alone must make up a group
fn is_shut(reading: &Reading, g: GroupNo) -> bool
    requires { Group (sheet_in reading.now.groups.now.table.now reading.now.groups.now.size) g.0 }
    ensures { result ≡ fold.shut (sheet_in reading.now.groups.now.table.now reading.now.groups.now.size) g.0 }
{
    let mode = reading.groups.get(g).mode;
    match reading.links.last(g) {
        // sons that are the same make it up by themselves; where two of them are disjoint too, nobody is left
        Some(son) if mode.is_same() => { reading.links.before(son).is_some() && mode.is_disjoint() }
        _ => mode.is_cover(),
    }
}

// a group's own bounds, where its flag allows them
fn own_of(reading: &Reading, g: GroupNo) -> Pair
    requires { Group (sheet_in reading.now.groups.now.table.now reading.now.groups.now.size) g.0 }
    ensures { let s = sheet_in reading.now.groups.now.table.now reading.now.groups.now.size in
        AlikeBoth (pair_of result) (fold.own s (may_in reading.now.flags.now) g.0) }
{
    let group = reading.groups.get(g);
    Pair::own(group.lo, group.hi, reading.flags[g.index()])
}

// Measures group g and all groups below it.
#[cycle(measure_group_measure_sons)]
fn measure_group(reading: &Reading, spans: &mut [Pair], after: &mut [Pair], g: GroupNo)
    requires lent { Lent reading.now.groups.now.size spans.old after.old }
    requires group { Group (sheet_in reading.now.groups.now.table.now reading.now.groups.now.size) g.0 }
    ensures done { let s = sheet_in reading.now.groups.now.table.now reading.now.groups.now.size in
        Done s (fold.spans_of s (may_in reading.now.flags.now)) g.0 0
        spans.old after.old spans.new after.new }
    ensures spanned { let s = sheet_in reading.now.groups.now.table.now reading.now.groups.now.size in
        Spanned (fold.spans_of s (may_in reading.now.flags.now)) spans.new g.0 }
{
    let below = measure_sons(reading, spans, after, g);
    spans[g.index()] = below.meet(own_of(reading, g));
}

// Measures the sons of g from the last one to the first, with all groups below them, and joins them. With each son the
// intervals of the sons after it are kept.
#[cycle(measure_group_measure_sons)]
fn measure_sons(reading: &Reading, spans: &mut [Pair], after: &mut [Pair], g: GroupNo) -> Pair
    requires lent { Lent reading.now.groups.now.size spans.old after.old }
    requires group { Group (sheet_in reading.now.groups.now.table.now reading.now.groups.now.size) g.0 }
    ensures done { let s = sheet_in reading.now.groups.now.table.now reading.now.groups.now.size in
        Done s (fold.spans_of s (may_in reading.now.flags.now)) g.0 0
        spans.old after.old spans.new after.new }
    ensures joined { let s = sheet_in reading.now.groups.now.table.now reading.now.groups.now.size in
        AlikeBoth (pair_of result) (fold.later s (fold.spans_of s (may_in reading.now.flags.now)) g.0 s.size) }
{
    let kind = Kind::of(reading.groups.get(g).mode);
    let mut sum = Pair::start(is_shut(reading, g));
    let mut next = reading.links.last(g);
    while let Some(son) = next {
        measure_group(reading, spans, after, son);
        after[son.index()] = sum;
        sum = sum.join(spans[son.index()], kind);
        next = reading.links.before(son);
    }
    sum
}

// Measures all groups of a sheet.
pub fn measure_sheet(groups: &Groups, flags: &[May], spans: &mut [Pair], after: &mut [Pair])
    requires flagged { groups.now.size ≤ length flags.now }
    requires lent { Lent groups.now.size spans.old after.old }
    ensures { AllDone (sheet_in groups.now.table.now groups.now.size) (spans_in groups.now.table.now groups.now.size flags.now)
        spans.new after.new }
{
    let mut last = [None; GROUP_CAPACITY];
    let mut prev = [None; GROUP_CAPACITY];
    link_sons(groups, &mut last, &mut prev);
    let reading = Reading {
        groups,
        flags,
        links: Links {
            last: &last,
            prev: &prev,
        },
    };
    measure_group(&reading, spans, after, GroupNo(1));
}
