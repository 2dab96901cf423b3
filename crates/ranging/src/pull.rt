// What a son may have where its parent's total and the other sons are known.
ghost use Rattle.std.specs.Prelude.{◌≡◌, ◌≤◌};
ghost use Rattle.spans.specs.Held.{top_of, span_held, kind_held};
ghost use Rattle.ranging.specs.Pull.{pull_by};
ghost use Rattle.sizes.specs.Span as sizes;

use spans::kind::Kind;
use spans::span::{NO_GREATEST, Span};

// the upper end less a
fn shorter(end: u32, a: u32) -> u32
    requires { a ≤ end }
    ensures { top_of result ≡ sizes.shorter (top_of end) a }
{
    if end == NO_GREATEST {
        NO_GREATEST
    } else {
        end - a
    }
}

// The x for which some y of the others and some total are joined, where the sons may share members (cut 0) or share none (cut
// the least of the others).
fn pull_ends(total: Span, others: Span, cut: u32) -> Span
    requires { cut ≤ others.least }
    ensures { span_held result ≡ pull_by cut total.least (top_of total.most) others.least (top_of others.most) }
{
    if total.most < others.least {
        return Span::NOTHING;
    }
    Span {
        least: total.least.saturating_sub(others.most),
        most: shorter(total.most, cut),
    }
}

// The x for which some y of the others and some total are joined by the kind.
pub fn pull(kind: Kind, total: Span, others: Span) -> Span
    ensures { span_held result ≡ sizes.pull (kind_held kind) (span_held total) (span_held others) }
{
    if total.is_empty() || others.is_empty() {
        return Span::NOTHING;
    }
    match kind {
        Kind::Lap => pull_ends(total, others, 0),
        Kind::Add => pull_ends(total, others, others.least),
        Kind::Eq => total.meet(others),
    }
}
