// Whether some sets fit a sheet, for all operations that ask it.
ghost use Rattle.std.specs.Prelude.{◌≡◌, ◌≤◌, true, Bool, false, ◌↔◌, ℕ, length};
ghost use Rattle.meaning.specs.Fits.{Possible};
ghost use Rattle.meaning.specs.Sheet.{Sheet};
ghost use Rattle.meaning.specs.Tree.{Tree, Rooted};
ghost use Rattle.sizes.specs.Ranged.{free};
ghost use Rattle.tables.specs.SheetIn.{sheet_in};
ghost use Rattle.measuring.specs.Done.{Lent};
ghost use Rattle.measuring.specs.Fitting.{PossibleTold};
ghost use Rattle.measuring.specs.Pairs.{pair_in};
ghost use Rattle.sizes.specs.Fold as fold;
ghost use Rattle.sizes.specs.Span as sizes;

use crate::measure::measure_sheet;
use spans::may::May;
use spans::pair::Pair;
use tables::groups::{GroupNo, Groups};
use tables::limits::GROUP_CAPACITY;

// Measures all groups, and says whether some sets fit.
pub fn measure(groups: &Groups, spans: &mut [Pair], after: &mut [Pair]) -> bool
    requires { Lent groups.now.size spans.old after.old }
    ensures { PossibleTold groups.now.table.now groups.now.size spans.new after.new result }
{
    measure_sheet(groups, &[May::FREE; GROUP_CAPACITY], spans, after);
    is_possible(spans)
}

pub fn some_fit(groups: &Groups) -> bool
    ensures { (result ≡ true) ↔ Possible (sheet_in groups.now.table.now groups.now.size) }
{
    let mut spans = [Pair::ZERO; GROUP_CAPACITY];
    let mut after = [Pair::ZERO; GROUP_CAPACITY];
    measure(groups, &mut spans, &mut after)
}

// whether the root's interval, as measured, has a number: whether some sets fit
fn is_possible(spans: &[Pair]) -> bool
    requires { 1 ≤ length spans.now }
    ensures { (s : Sheet) (z : ℕ → Bool → sizes.Span) → Tree s → Rooted s → fold.Measured s free z
        → pair_in spans.now 1 false ≡ z 1 false → (result ≡ true) ↔ Possible s }
{
    !spans[GroupNo(1).index()].out.is_empty()
}
