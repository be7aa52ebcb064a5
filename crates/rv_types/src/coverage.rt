//! What is wrong with the choices of a case statement, and where (5.4).

use crate::choice::choice;
use crate::point::Point;
use crate::refused::Refused;
use rv_code::Choice as Covered;
use rv_shape::kind::Range;
use rv_static::{Faults, TypeFault};
use rv_tree::{CaseAlternative, Choice};
use std::alloc::Global;

// Values that a choice covers, from the low one to the high one, and its place.
type Span = (i64, i64, usize);

// What the choices of a case statement cover.
#[derive(Drop)]
struct Gathered {
    spans: Vec<Span>,
    // Whether one of them is `others`.
    has_others: bool,
    // Whether one of them isn't static, or of another type, so that nothing is known of what is missing.
    is_unknown: bool,
}

// The place of a choice.
fn choice_place(one: &Choice) -> usize {
    match one {
        Choice::Others(at) => *at,
        Choice::Value(e) => e.place(),
        Choice::Range(low, _) => low.place(),
    }
}

// The place of the last value of a choice.
fn last_place(one: &Choice) -> usize {
    match one {
        Choice::Range(_, high) => high.place(),
        _ => choice_place(one),
    }
}

// `others` stands alone, in the last alternative.
fn others(at: usize, is_last: bool, gathered: &mut Gathered, faults: &mut Faults) {
    if !is_last || gathered.has_others {
        faults.tell(TypeFault::BadChoice(at));
    }
    gathered.has_others = true;
}

// A choice of an alternative.
fn gather(
    one: &Choice,
    is_last: bool,
    range: Range,
    point: &Point,
    gathered: &mut Gathered,
    faults: &mut Faults,
) -> Result<(), Refused> {
    let at = choice_place(one);
    match choice(range, one, point) {
        Ok(Covered::Others) => others(at, is_last, gathered, faults),
        Ok(Covered::Values(low, high)) => {
            if low <= high {
                if low < range.low {
                    faults.tell(TypeFault::TooLarge(at));
                } else if range.high < high {
                    faults.tell(TypeFault::TooLarge(last_place(one)));
                }
                gathered.spans.push((low, high, at))?;
            }
        }
        Err(_) => gathered.is_unknown = true,
    }
    Ok(())
}

// The choices of an alternative.
fn gather_all(
    alternative: &CaseAlternative,
    is_last: bool,
    range: Range,
    point: &Point,
    gathered: &mut Gathered,
    faults: &mut Faults,
) -> Result<(), Refused> {
    let is_alone = alternative.choices.len() == 1;
    for one in &alternative.choices {
        gather(one, is_last && is_alone, range, point, gathered, faults)?;
    }
    Ok(())
}

// Whether two of these cover a value, where they stand in the order of their low values.
fn has_overlap(sorted: &[Span]) -> bool {
    let mut last: Option<i64> = None;
    for (low, high, _) in sorted {
        if let Some(before) = last {
            if *low <= before {
                return true;
            }
        }
        last = Some(*high);
    }
    false
}

// Whether a value of the range is in none of these.
fn has_gap(range: Range, sorted: &[Span]) -> bool {
    let mut next = range.low;
    for (low, high, _) in sorted {
        if next > range.high {
            return false;
        }
        if *low > next {
            return true;
        }
        if *high >= next {
            next = high.saturating_add(1);
        }
    }
    next <= range.high
}

// Whether two of these cover a value, in whatever order they stand.
fn is_twice(alloc: Global, spans: &[Span]) -> Result<bool, Refused> {
    let mut sorted = Vec::from_slice(alloc, spans)?;
    sorted.sort()?;
    Ok(has_overlap(&sorted))
}

// How many of these, from the first on, cover no value twice; all but those beyond 2^32. It is found by halves.
fn count_clear(alloc: Global, spans: &[Span]) -> Result<usize, Refused> {
    let mut clear: usize = 0;
    let mut more: usize = 2147483648;
    for _ in 0..32 {
        let next = clear.saturating_add(more);
        if next <= spans.len() {
            if !is_twice(alloc, &spans[..next])? {
                clear = next;
            }
        }
        more /= 2;
    }
    Ok(clear)
}

// Tells of the first choice that covers a value which one before it covers.
fn tell_overlap(alloc: Global, spans: &[Span], faults: &mut Faults) -> Result<(), Refused> {
    let clear = count_clear(alloc, spans)?;
    if let Some((_, _, at)) = spans.get(clear) {
        faults.tell(TypeFault::BadChoice(*at));
    }
    Ok(())
}

// Tells what is wrong with what the choices cover, of all values of a range.
fn tell_coverage(
    alloc: Global,
    range: Range,
    at: usize,
    gathered: Gathered,
    faults: &mut Faults,
) -> Result<(), Refused> {
    let Gathered {
        spans,
        has_others,
        is_unknown,
    } = gathered;
    let mut sorted = spans.clone()?;
    sorted.sort()?;
    if has_overlap(&sorted) {
        tell_overlap(alloc, &spans, faults)?;
    }
    if !has_others && !is_unknown && has_gap(range, &sorted) {
        faults.tell(TypeFault::BadChoice(at));
    }
    Ok(())
}

/// What is wrong with the choices of a case statement whose selector, at a place, has the values of a range: values outside
/// the range, a value in two choices, `others` that isn't last, or a value in no choice, which is told at the selector. A
/// choice that isn't static is told elsewhere.
pub(crate) fn uncovered(
    alloc: Global,
    range: Range,
    at: usize,
    list: &Vec<CaseAlternative>,
    point: &Point,
) -> Result<Option<Refused>, Refused> {
    let mut faults = Faults::new();
    let mut gathered = Gathered {
        spans: Vec::new(alloc),
        has_others: false,
        is_unknown: false,
    };
    let mut left = list.len();
    for alternative in list {
        left = left.saturating_sub(1);
        gather_all(
            alternative,
            left == 0,
            range,
            point,
            &mut gathered,
            &mut faults,
        )?;
    }
    tell_coverage(alloc, range, at, gathered, &mut faults)?;
    match faults.first() {
        Some(fault) => Ok(Some(Refused(fault))),
        None => Ok(None),
    }
}
