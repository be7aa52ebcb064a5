//! Whether each value of a case selector's subtype is of exactly one choice (5.4).

ghost use Rattle.std.specs.Prelude.{◌≡◌, ◌&&◌, OnOk, IfOk, true, [], int_lt, pos};
ghost use Rattle.rv_code.specs.StatementView.{alternatives_view};
ghost use Rattle.rv_types.specs.Coverage.{is_others as is_others_choice, has_others as have_others, lies_in as choice_lies_in, all_lie_in as all_choices_lie_in, is_alone as stands_alone, others_last as others_are_last, with_others as one_has_others, lie_in as alternatives_lie_in, covers as covers_range};
ghost use Rattle.rv_types.specs.Spans.{with_span, spans_onto, all_spans, are_parts, are_rising, begins as span_begins, value_after, each_once as values_each_once};

use rv_code::{Alternative, Choice};
use rv_shape::kind::Range;
use std::alloc::{AllocError, Global};

// The values of a choice, from the low one to the high one.
type Span = (i64, i64);

fn is_others(one: Choice) -> bool
    ensures { result ≡ is_others_choice one }
{
    match one {
        Choice::Others => true,
        Choice::Values(_, _) => false,
    }
}

// Whether one of these choices is `others`.
fn has_others(list: &Vec<Choice>) -> bool
    ensures { result ≡ have_others list.now.items }
{
    for one in list {
        if is_others(*one) {
            return true;
        }
    }
    false
}

// Whether `others` is the only choice.
fn is_alone(list: &Vec<Choice>) -> bool
    ensures { result ≡ stands_alone list.now.items }
{
    match list.as_slice() {
        [one] => is_others(*one),
        _ => false,
    }
}

// Whether a choice covers values of the range alone.
fn lies_in(range: Range, one: Choice) -> bool
    ensures { result ≡ choice_lies_in range one }
{
    match one {
        Choice::Others => true,
        Choice::Values(low, high) => high < low || range.low <= low && high <= range.high,
    }
}

fn all_lie_in(range: Range, list: &Vec<Choice>) -> bool
    ensures { result ≡ all_choices_lie_in range list.now.items }
{
    for one in list {
        if !lies_in(range, *one) {
            return false;
        }
    }
    true
}

// Whether `others` stands alone, in the last alternative.
fn others_last(list: &Vec<Alternative>) -> bool
    ensures { result ≡ others_are_last (alternatives_view list.now.items) }
{
    let mut is_last = false;
    for alternative in list {
        if is_last {
            return false;
        }
        if has_others(&alternative.choices) {
            if !is_alone(&alternative.choices) {
                return false;
            }
            is_last = true;
        }
    }
    true
}

// Whether one of these alternatives has `others`.
fn with_others(list: &Vec<Alternative>) -> bool
    ensures { result ≡ one_has_others (alternatives_view list.now.items) }
{
    for alternative in list {
        if has_others(&alternative.choices) {
            return true;
        }
    }
    false
}

// Whether all choices cover values of the range alone.
fn lie_in(range: Range, list: &Vec<Alternative>) -> bool
    ensures { result ≡ alternatives_lie_in range (alternatives_view list.now.items) }
{
    for alternative in list {
        if !all_lie_in(range, &alternative.choices) {
            return false;
        }
    }
    true
}

// The span of a choice, behind those that are there.
fn push_span(one: Choice, spans: &mut Vec<Span>) -> Result<(), AllocError>
    ensures { OnOk result (spans.new.items ≡ with_span one spans.old.items) }
{
    match one {
        Choice::Others => Ok(()),
        Choice::Values(low, high) => {
            if low <= high {
                spans.push((low, high))?;
            }
            Ok(())
        }
    }
}

fn push_spans(list: &Vec<Choice>, spans: &mut Vec<Span>) -> Result<(), AllocError>
    ensures { OnOk result (spans.new.items ≡ spans_onto list.now.items spans.old.items) }
{
    for one in list {
        push_span(*one, spans)?;
    }
    Ok(())
}

// The spans of all choices.
fn spans_of(alloc: Global, list: &Vec<Alternative>) -> Result<Vec<Span>, AllocError>
    ensures { IfOk result (λ v. v.items ≡ all_spans (alternatives_view list.now.items) []) }
{
    let mut spans = Vec::new(alloc);
    for alternative in list {
        push_spans(&alternative.choices, &mut spans)?;
    }
    Ok(spans)
}

// Whether a span begins at a value, or behind it where there may be gaps.
fn begins(gaps: bool, next: i64, low: i64) -> bool
    ensures { result ≡ span_begins gaps next low }
{
    next <= low && (gaps || low <= next)
}

// The value behind such a span, if there is one.
fn after(gaps: bool, next: i64, span: Span) -> Option<i64>
    ensures { result ≡ value_after gaps next span }
{
    let (first, last) = span;
    if begins(gaps, next, first) && last < i64::MAX {
        Some(last + 1)
    } else {
        None
    }
}

// Whether each value from a low one to a high one is in exactly one of these spans, which stand in the order of their first
// values, or where there may be gaps in none.
fn in_order(gaps: bool, low: i64, high: i64, spans: &Vec<Span>) -> bool
    requires parts { are_parts low high spans.now.items ≡ true }
    requires order { are_rising spans.now.items ≡ true }
    requires end { int_lt high (pos 9223372036854775807) ≡ true }
    ensures { result ≡ values_each_once gaps low high spans.now.items }
{
    let mut next = low;
    for span in spans {
        match after(gaps, next, *span) {
            None => return false,
            Some(behind) => next = behind,
        }
    }
    gaps || high < next
}

// The same of spans in any order.
fn each_once(gaps: bool, low: i64, high: i64, given: Vec<Span>) -> bool
    requires parts { are_parts low high given.items ≡ true }
    requires end { int_lt high (pos 9223372036854775807) ≡ true }
    ensures { result ≡ values_each_once gaps low high given.items }
{
    let mut spans = given;
    spans.sort_unstable();
    in_order(gaps, low, high, &spans)
}

/// Whether each value of the range is of exactly one choice, and no other value of any. No range goes up to the last `i64`.
#[tactic(auto, unfolding(crate::specs::Coverage::covers))]
pub(crate) fn covers(
    alloc: Global,
    range: Range,
    list: &Vec<Alternative>,
) -> Result<bool, AllocError>
    ensures { IfOk result (λ b. b ≡ (int_lt range.high (pos 9223372036854775807) && covers_range range (alternatives_view list.now.items))) }
{
    if range.high == i64::MAX || !others_last(list) || !lie_in(range, list) {
        return Ok(false);
    }
    let spans = spans_of(alloc, list)?;
    Ok(each_once(with_others(list), range.low, range.high, spans))
}
