// Intervals in two numbers, and the arithmetic of their ends. Each function is an equation with the function of the same meaning in
// `sizes`.
ghost use Rattle.std.specs.Prelude.{◌≡◌, ltb};
ghost use Rattle.spans.specs.Held.{span_held, kind_held, Room};
ghost use Rattle.sizes.specs.Span as sizes;

use crate::kind::Kind;

// Stands for no upper end, in tables and in replies; no sum of upper ends reaches it.
pub const NO_GREATEST: u32 = u32::MAX;

// The numbers from `least` to `most`, or from `least` on where `most` is NO_GREATEST; none where `least` is above `most`.
#[derive(Clone, Copy, PartialEq, Eq)]
pub struct Span {
    pub least: u32,
    pub most: u32,
}

impl Span {
    // no number
    pub const NOTHING: Span = Span { least: 1, most: 0 };

    pub fn is_empty(self) -> bool
        ensures { result ≡ ltb self.most self.least }
    {
        self.most < self.least
    }

    // what two spans share
    pub fn meet(self, other: Span) -> Span
        ensures { span_held result ≡ sizes.meet (span_held self) (span_held other) }
    {
        Span {
            least: self.least.max(other.least),
            most: self.most.min(other.most),
        }
    }

    // the least span that holds both
    pub fn hull(self, other: Span) -> Span
        ensures { span_held result ≡ sizes.hull (span_held self) (span_held other) }
    {
        if self.is_empty() {
            return other;
        }
        if other.is_empty() {
            return self;
        }
        Span {
            least: self.least.min(other.least),
            most: self.most.max(other.most),
        }
    }

    // the numbers made of one of each, as the kind makes them
    pub fn join(self, other: Span, kind: Kind) -> Span
        requires { Room (span_held self) × Room (span_held other) }
        ensures { span_held result ≡ sizes.join (kind_held kind) (span_held self) (span_held other) }
    {
        if self.is_empty() || other.is_empty() {
            return Span::NOTHING;
        }
        match kind {
            Kind::Lap => Span {
                least: self.least.max(other.least),
                most: self.most.saturating_add(other.most),
            },
            Kind::Add => Span {
                least: self.least + other.least,
                most: self.most.saturating_add(other.most),
            },
            Kind::Eq => self.meet(other),
        }
    }
}
