// The arrangement: sizes from the root down, group after group, then the starts of the runs. `left` has with each group
// what its sons so far have left of it.
ghost use Rattle.std.specs.Prelude.{◌≡◌, ◌≤◌, ℕ, length};
ghost use Rattle.meaning.specs.Arranged.{Arranged};
ghost use Rattle.meaning.specs.Sheet.{Group};
ghost use Rattle.tables.specs.Modes.{disjoint_mode, cover_mode, same_mode};
ghost use Rattle.tables.specs.Numbers.{number_in};
ghost use Rattle.tables.specs.SheetIn.{sheet_in};
ghost use Rattle.spans.specs.Held.{top_of};
ghost use Rattle.measuring.specs.Done.{Lent};
ghost use Rattle.measuring.specs.Fitting.{Arrangeable};
ghost use Rattle.measuring.specs.Pairs.{least_in, greatest_in};
ghost use Rattle.ranging.specs.Sized.{size_by};

use runs::starts::start_runs;
use spans::pair::Pair;
use spans::span::Span;
use tables::groups::{GroupNo, Groups};
use tables::modes::Mode;

// The size of a son under a group of this mode with `whole` members, of which `rest` are left for it. Where 'same' with
// 'disjoint' has two or more sons the group itself is empty, so no case of its own is needed.
#[tactic(auto, using(spans::proofs::HeldLaws::cap_top), unfolding(crate::specs::Sized::size_by))]
fn size_under(mode: Mode, own: Span, whole: u32, rest: u32) -> u32
    ensures { result ≡ size_by (same_mode mode.0) (disjoint_mode mode.0) (cover_mode mode.0) own.least (top_of own.most)
        whole rest }
{
    if mode.is_same() {
        whole
    } else if !mode.is_cover() {
        own.least
    } else if mode.is_disjoint() {
        own.most.min(rest)
    } else {
        own.most.min(whole)
    }
}

// the sizes of all groups
fn size_groups(groups: &Groups, spans: &[Pair], after: &[Pair], sizes: &mut [u32], left: &mut [u32])
    requires lent { Lent groups.now.size spans.now after.now }
    requires arrangeable { Arrangeable groups.now.table.now groups.now.size spans.now after.now }
    requires room { (groups.now.size ≤ length sizes.old) × (groups.now.size ≤ length left.old) }
    ensures { (first f : ℕ → ℕ)
        → Arranged (sheet_in groups.now.table.now groups.now.size) (least_in spans.now) (greatest_in spans.now) first f
        → (g : ℕ) → Group (sheet_in groups.now.table.now groups.now.size) g → number_in sizes.new g ≡ f g }
{
    let root = spans[0].out;
    sizes[0] = root.least;
    left[0] = root.least;
    for n in 2..=groups.size {
        let g = GroupNo(n);
        let parent = groups.parent(g);
        let i = g.index();
        let j = parent.index();
        let own = spans[i].out;
        let others = after[i].out;
        let rest = left[j].saturating_sub(others.least);
        let count = size_under(groups.get(parent).mode, own, sizes[j], rest);
        sizes[i] = count;
        left[i] = count;
        left[j] = left[j].saturating_sub(count);
    }
}

// The arrangement of document 01, from the bounds that measuring left: the count of each group in `sizes`, its first member
// in `firsts`; `ends` is written over.
pub fn arrange(
    groups: &Groups,
    spans: &[Pair],
    after: &[Pair],
    sizes: &mut [u32],
    firsts: &mut [u32],
    ends: &mut [u32],
)
    requires lent { Lent groups.now.size spans.now after.now }
    requires arrangeable { Arrangeable groups.now.table.now groups.now.size spans.now after.now }
    requires room { (groups.now.size ≤ length sizes.old) × (groups.now.size ≤ length firsts.old)
        × (groups.now.size ≤ length ends.old) }
    ensures { Arranged (sheet_in groups.now.table.now groups.now.size) (least_in spans.now)
        (greatest_in spans.now) (number_in firsts.new) (number_in sizes.new) }
{
    size_groups(groups, spans, after, sizes, ends);
    start_runs(groups, sizes, firsts, ends);
}
