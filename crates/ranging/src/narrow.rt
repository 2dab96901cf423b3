// The ranges, from the root down, group after group. `rest` has with each group what its sons not yet taken must make up.
ghost use Rattle.std.specs.Prelude.{◌≤◌, ℕ, length, Bool};
ghost use Rattle.sizes.specs.Ranged.{Ranged};
ghost use Rattle.tables.specs.SheetIn.{sheet_in};
ghost use Rattle.measuring.specs.Done.{Lent};
ghost use Rattle.measuring.specs.Fitting.{Measures};
ghost use Rattle.ranging.specs.Table.{span_in};
ghost use Rattle.sizes.specs.Span as sizes;

use crate::pull::pull;
use spans::kind::Kind;
use spans::pair::Pair;
use spans::span::Span;
use tables::groups::{GroupNo, Groups};

// The least and the greatest count of each group in `ranges`, from the intervals that measuring left: each turn takes one
// group off the sons of its parent that are not yet taken. `rest` is written over.
pub fn narrow(
    groups: &Groups,
    spans: &[Pair],
    after: &[Pair],
    ranges: &mut [Span],
    rest: &mut [Span],
)
    requires lent { Lent groups.now.size spans.now after.now }
    requires room { (groups.now.size ≤ length ranges.old) × (groups.now.size ≤ length rest.old) }
    ensures { (z : ℕ → Bool → sizes.Span)
        → Measures (sheet_in groups.now.table.now groups.now.size) z spans.now after.now
        → Ranged (sheet_in groups.now.table.now groups.now.size) z (span_in ranges.new) }
{
    let root = spans[0].out;
    ranges[0] = root;
    rest[0] = root;
    for n in 2..=groups.size {
        let g = GroupNo(n);
        let parent = groups.parent(g);
        let i = g.index();
        let j = parent.index();
        let kind = Kind::of(groups.get(parent).mode);
        let own = spans[i].out;
        let others = after[i].out;
        let whole = rest[j];
        let range = own.meet(pull(kind, whole, others));
        ranges[i] = range;
        rest[i] = range;
        rest[j] = others.meet(pull(kind, whole, own));
    }
}
