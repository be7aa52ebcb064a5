//! How long things lasted: of spans of ticks how many there are, the middle one, the least that no more than a hundredth are above, and
//! the longest.
#![tactic(auto)]

ghost use Rattle.std.specs.Prelude.{◌≡◌, IfOk, slice_index, string_bytes};
ghost use Rattle.rv_spans.specs.Spans.{in_order, ranks_text, ranks_words};

use std::alloc::{AllocError, Global};

// The span at a place, from 0; past the last none, which is 0.
fn at(spans: &[u64], place: usize) -> u64
    ensures { result ≡ slice_index spans.now place }
{
    match spans.get(place) {
        Some(span) => *span,
        None => 0,
    }
}

/// Spans in order, the shortest first.
pub fn sorted(mut spans: Vec<u64>) -> Vec<u64>
    ensures { result.items ≡ in_order spans.items }
{
    spans.sort_unstable();
    spans
}

// The same in words.
fn ranks_words(
    alloc: Global,
    number: usize,
    median: u64,
    high: u64,
    longest: u64,
) -> Result<String, AllocError>
    ensures { IfOk result (λ text. string_bytes text ≡ ranks_words number median high longest) }
{
    format!(in alloc; "{number} median {median} 99th {high} longest {longest}")
}

/// What is told of spans of ticks: how many there are, and which of them stand in the middle, above all but a hundredth, and last. Err
/// where memory was refused.
pub fn ranks_text(alloc: Global, spans: Vec<u64>) -> Result<String, AllocError>
    ensures { IfOk result (λ text. string_bytes text ≡ ranks_text spans.items) }
{
    let number = spans.as_slice().len();
    let last = number.saturating_sub(1);
    let spans = sorted(spans);
    ranks_words(
        alloc,
        number,
        at(spans.as_slice(), last / 2),
        at(spans.as_slice(), last.saturating_sub(number / 100)),
        at(spans.as_slice(), last),
    )
}
