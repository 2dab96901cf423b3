// How a number and a state of a group's sons are divided between one son and the later ones.
ghost use Rattle.std.specs.Prelude.{◌≡◌, Bool, true, false, ◌↔◌};
ghost use Rattle.laws.specs.Sum.{bit};
ghost use Rattle.sizes.specs.Span.{In, join, Makes, son_of};
ghost use Rattle.spans.specs.Held.{span_held, kind_held, pair_of};
ghost use Rattle.choosing.specs.Parted.{Divisible, Shared};
ghost use Rattle.choosing.specs.Parts.{rest_state, son_state, rest_by};

use spans::kind::Kind;
use spans::pair::Pair;
use spans::span::Span;

// A number, and whether the one more member is in.
#[derive(Clone, Copy, PartialEq, Eq)]
pub struct Part {
    pub number: u32,
    pub inn: bool,
}

impl Part {
    // what a table has where nothing was stored
    pub const ZERO: Part = Part {
        number: 0,
        inn: false,
    };
}

// What falls to the later sons, and to the one son.
#[derive(Clone, Copy, PartialEq, Eq)]
pub struct Parts {
    pub rest: Part,
    pub son: Part,
}

// whether r is in two spans joined; no sum is taken, so none can wrap
fn join_has(kind: Kind, a: Span, b: Span, r: u32) -> bool
    ensures { (result ≡ true) ↔ In r (join (kind_held kind) (span_held a) (span_held b)) }
{
    if a.is_empty() || b.is_empty() {
        return false;
    }
    match kind {
        Kind::Lap => a.least.max(b.least) <= r && r.saturating_sub(a.most) <= b.most,
        Kind::Add => {
            a.least <= r && b.least <= r - a.least && r.saturating_sub(a.most) <= b.most
        }
        Kind::Eq => a.least.max(b.least) <= r && r <= a.most.min(b.most),
    }
}

// The states of the later sons and of the one son, the first that can be joined: the later sons in and the one out, the other
// way round, both in.
fn states(kind: Kind, rest: Pair, son: Pair, r: u32, c: bool) -> (bool, bool)
    requires { Divisible (kind_held kind) (pair_of rest) (pair_of son) r c }
    ensures joined { (Makes (kind_held kind) (bit result.0) (bit result.1) (bit c))
        × In r (join (kind_held kind) (pair_of rest result.0) (pair_of son result.1)) }
    ensures first { (first second : Bool)
        → (first ≡ true) ↔ In r (join (kind_held kind) (pair_of rest true) (pair_of son false))
        → (second ≡ true) ↔ In r (join (kind_held kind) (pair_of rest false) (pair_of son true))
        → (result.0 ≡ rest_state (kind_held kind) c first second) × (result.1 ≡ son_state (kind_held kind) c first second) }
{
    if !c {
        return (false, false);
    }
    match kind {
        Kind::Lap | Kind::Add if join_has(kind, rest.inn, son.out, r) => (true, false),
        Kind::Lap | Kind::Add if join_has(kind, rest.out, son.inn, r) => (false, true),
        _ => (true, true),
    }
}

// the numbers of the later sons and of the one son
fn numbers(kind: Kind, rest: Span, son: Span, r: u32) -> (u32, u32)
    requires { In r (join (kind_held kind) (span_held rest) (span_held son)) }
    ensures divided { (Makes (kind_held kind) result.0 result.1 r) × In result.0 (span_held rest) × In result.1 (span_held son) }
    ensures taken { (result.1 ≡ son_of (kind_held kind) (span_held rest) (span_held son) r)
        × (result.0 ≡ rest_by (kind_held kind) rest.most r result.1) }
{
    match kind {
        Kind::Lap => (rest.most.min(r), son.most.min(r)),
        Kind::Add => {
            let y = son.least.max(r.saturating_sub(rest.most));
            (r - y, y)
        }
        Kind::Eq => (r, r),
    }
}

// a number of the joined spans, divided
pub fn divided(kind: Kind, rest: Pair, son: Pair, r: u32, c: bool) -> Parts
    requires { Divisible (kind_held kind) (pair_of rest) (pair_of son) r c }
    ensures { Shared (kind_held kind) (pair_of rest) (pair_of son) r c result.rest.number result.rest.inn result.son.number result.son.inn }
{
    let (rest_in, son_in) = states(kind, rest, son, r, c);
    let (x, y) = numbers(kind, rest.at(rest_in), son.at(son_in), r);
    Parts {
        rest: Part {
            number: x,
            inn: rest_in,
        },
        son: Part {
            number: y,
            inn: son_in,
        },
    }
}
