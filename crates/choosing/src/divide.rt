// A number and a mark for every group, in number order: each group's number is divided among its sons, and what is left to
// the later sons is kept with the group.
ghost use Rattle.std.specs.Prelude.{◌≡◌, ◌-◌, ◌≤◌, set, length};
ghost use Rattle.laws.specs.Sum.{bit};
ghost use Rattle.sizes.specs.Span.{In};
ghost use Rattle.tables.specs.Numbers.{number_in};
ghost use Rattle.tables.specs.SheetIn.{sheet_in};
ghost use Rattle.measuring.specs.Done.{Lent};
ghost use Rattle.measuring.specs.Pairs.{pair_in};
ghost use Rattle.choosing.specs.Divided.{RoomFor, marked_in, Folded, DividedTo, Dividend};

use crate::parts::{Part, divided};
use spans::kind::Kind;
use spans::pair::Pair;
use tables::groups::{GroupNo, Groups};
use tables::limits::GROUP_CAPACITY;

// the number and the mark of a group; all of it is left to its sons
fn give(sizes: &mut [u32], marks: &mut [u8], left: &mut [Part], g: GroupNo, part: Part)
    requires { (1 ≤ g.0) × RoomFor g.0 sizes.old marks.old left.old }
    ensures sizes_after { sizes.new ≡ set sizes.old (g.0 - 1) part.number }
    ensures marks_after { marks.new ≡ set marks.old (g.0 - 1) (bit part.inn) }
    ensures left_after { left.new ≡ set left.old (g.0 - 1) part }
{
    let i = g.index();
    sizes[i] = part.number;
    marks[i] = u8::from(part.inn);
    left[i] = part;
}

// Gives group g what its parent has left for it.
fn divide_son(
    groups: &Groups,
    spans: &[Pair],
    after: &[Pair],
    sizes: &mut [u32],
    marks: &mut [u8],
    left: &mut [Part],
    g: GroupNo,
)
    requires lent { Lent groups.now.size spans.now after.now }
    requires folded { Folded (sheet_in groups.now.table.now groups.now.size) spans.now after.now }
    requires son { (2 ≤ g.0) × (g.0 ≤ groups.now.size) × RoomFor groups.now.size sizes.old marks.old left.old }
    requires divided { DividedTo (sheet_in groups.now.table.now groups.now.size) (pair_in spans.now) sizes.old marks.old left.old
        (g.0 - 1) }
    ensures given { DividedTo (sheet_in groups.now.table.now groups.now.size) (pair_in spans.now)
        sizes.new marks.new left.new g.0 }
    ensures root_unchanged { (number_in sizes.new 1 ≡ number_in sizes.old 1)
        × (marked_in marks.new 1 ≡ marked_in marks.old 1) }
{
    let parent = groups.parent(g);
    let whole = left[parent.index()];
    let parts = divided(
        Kind::of(groups.get(parent).mode),
        after[g.index()],
        spans[g.index()],
        whole.number,
        whole.inn,
    );
    give(sizes, marks, left, g, parts.son);
    left[parent.index()] = parts.rest;
}

// The root gets the number r and the state c, which its interval for that state has.
pub fn divide(
    groups: &Groups,
    spans: &[Pair],
    after: &[Pair],
    r: u32,
    c: bool,
    sizes: &mut [u32],
    marks: &mut [u8],
)
    requires lent { Lent groups.now.size spans.now after.now }
    requires folded { Folded (sheet_in groups.now.table.now groups.now.size) spans.now after.now }
    requires room { (groups.now.size ≤ length sizes.old) × (groups.now.size ≤ length marks.old) × In r (pair_in spans.now 1 c) }
    ensures { Dividend (sheet_in groups.now.table.now groups.now.size) (pair_in spans.now) r c sizes.new marks.new }
{
    let mut left = [Part::ZERO; GROUP_CAPACITY];
    give(
        sizes,
        marks,
        &mut left,
        GroupNo(1),
        Part { number: r, inn: c },
    );
    for n in 2..=groups.size {
        divide_son(groups, spans, after, sizes, marks, &mut left, GroupNo(n));
    }
}
