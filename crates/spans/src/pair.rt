// Pairs of intervals, for a member out of the group and in it, and how a son's are joined to those so far.
ghost use Rattle.std.specs.Prelude.{◌≡◌, false, true, cond};
ghost use Rattle.wire.specs.Limits.{no_end};
ghost use Rattle.meaning.specs.Sheet.{end_of};
ghost use Rattle.spans.specs.Held.{pair_of, RoomBoth, AlikeBoth, kind_held, span_held, may_flag};
ghost use Rattle.sizes.specs.Span as sizes;
ghost use Rattle.sizes.specs.Fold as fold;

use crate::kind::Kind;
use crate::may::May;
use crate::span::{NO_GREATEST, Span};
use tables::limits::NO_END;

// The intervals of one group: for one member out of it, and for that member in it.
#[derive(Clone, Copy, PartialEq, Eq)]
pub struct Pair {
    pub out: Span,
    pub inn: Span,
}

impl Pair {
    // the number 0 alone, in both states: what a table has where nothing was stored
    pub const ZERO: Pair = Pair {
        out: Span { least: 0, most: 0 },
        inn: Span { least: 0, most: 0 },
    };

    // the intervals before any son is joined; `shut`: the sons alone must make up the group
    pub fn start(shut: bool) -> Pair
        ensures { AlikeBoth (pair_of result) (fold.start shut) }
    {
        let any = Span {
            least: 0,
            most: NO_GREATEST,
        };
        if shut {
            Pair {
                out: Span { least: 0, most: 0 },
                inn: Span::NOTHING,
            }
        } else {
            Pair { out: any, inn: any }
        }
    }

    // a group's own bounds in each state that its member may have; in another one there is none
    pub fn own(lo: u16, hi: u16, may: May) -> Pair
        ensures { AlikeBoth (pair_of result) (λ c. cond (may_flag may c) (fold.own_to lo (end_of no_end hi) c) sizes.none) }
    {
        Pair {
            out: if may.out {
                own_out(lo, hi)
            } else {
                Span::NOTHING
            },
            inn: if may.inn {
                own_in(lo, hi)
            } else {
                Span::NOTHING
            },
        }
    }

    // the interval of the state c
    pub fn at(self, c: bool) -> Span
        ensures { span_held result ≡ pair_of self c }
    {
        if c { self.inn } else { self.out }
    }

    pub fn meet(self, other: Pair) -> Pair
        ensures { AlikeBoth (pair_of result) (λ c. sizes.meet (pair_of self c) (pair_of other c)) }
    {
        Pair {
            out: self.out.meet(other.out),
            inn: self.inn.meet(other.inn),
        }
    }

    // one more son, with its intervals, joined to those joined so far
    pub fn join(self, son: Pair, kind: Kind) -> Pair
        requires { RoomBoth (pair_of self) × RoomBoth (pair_of son) }
        ensures { AlikeBoth (pair_of result) (fold.joined (kind_held kind) (pair_of self) (pair_of son)) }
    {
        Pair {
            out: self.out.join(son.out, kind),
            inn: match kind {
                Kind::Lap => self
                    .join_one(son, Kind::Lap)
                    .hull(self.inn.join(son.inn, Kind::Lap)),
                Kind::Add => self.join_one(son, Kind::Add),
                Kind::Eq => self.inn.join(son.inn, Kind::Eq),
            },
        }
    }

    // joined with the member in one of the two
    fn join_one(self, son: Pair, kind: Kind) -> Span
        requires { RoomBoth (pair_of self) × RoomBoth (pair_of son) }
        ensures { span_held result ≡ sizes.hull (sizes.join (kind_held kind) (span_held self.inn) (span_held son.out)) (sizes.join (kind_held kind)
            (span_held self.out) (span_held son.inn)) }
    {
        self.inn
            .join(son.out, kind)
            .hull(self.out.join(son.inn, kind))
    }
}

// a group's own bounds for the member out of it, and for the member in it
fn own_out(lo: u16, hi: u16) -> Span
    ensures { span_held result ≡ fold.own_to lo (end_of no_end hi) false }
{
    Span {
        least: u32::from(lo),
        most: if hi == NO_END {
            NO_GREATEST
        } else {
            u32::from(hi)
        },
    }
}

fn own_in(lo: u16, hi: u16) -> Span
    ensures { span_held result ≡ fold.own_to lo (end_of no_end hi) true }
{
    let least = u32::from(lo.saturating_sub(1));
    match hi {
        0 => Span::NOTHING,
        NO_END => Span {
            least,
            most: NO_GREATEST,
        },
        _ => Span {
            least,
            most: u32::from(hi) - 1,
        },
    }
}
