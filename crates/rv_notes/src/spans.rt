//! Spans of ticks that together hold others.

ghost use Rattle.std.specs.Prelude.{◌≡◌, ◌<◌, ◌↔◌, true, false, IfSome, IfNone, IsTrue};
ghost use Rattle.rv_notes.specs.Covered.{AreHeld, is_held};

/// A span of ticks: the first, and the first behind it.
pub(crate) type Span = (u64, u64);

// The first tick behind a span that holds this one.
fn end_of(spans: &[Span], tick: u64) -> Option<u64>
    ensures later { IfSome result (λ end. tick < end) }
    ensures held { IfSome result (λ end. AreHeld spans.now tick end) }
    ensures none { IfNone result (is_held spans.now tick ≡ false) }
{
    for (first, end) in spans {
        if *first <= tick && tick < *end {
            return Some(*end);
        }
    }
    None
}

/// Whether the spans together hold each tick from one on and before another. A span that was left isn't looked into again,
/// so that it takes at most the square of their number.
pub(crate) fn are_held(spans: &[Span], first: u64, end: u64) -> bool
    ensures { IsTrue result ↔ AreHeld spans.now first end }
{
    let mut tick = first;
    while tick < end {
        let Some(next) = end_of(spans, tick) else {
            return false;
        };
        tick = next;
    }
    true
}
