//! What is wished of a timeline.

use rv_inquiry::inquiry::Inquiry;
use rv_review::{Filter, Form, Frame, Wish};

// The number of an entry, if one is given.
fn number_of(given: Option<u64>) -> Option<usize> {
    match given {
        Some(number) => Some(number as usize),
        None => None,
    }
}

/// What is wished of a timeline, of the entries that are asked for.
pub fn wish_of<'a>(asked: &Inquiry<'_>, filter: Filter<'a>) -> Wish<'a> {
    let form = if asked.is_svg {
        Form::Svg
    } else {
        Form::Letters
    };
    Wish {
        filter,
        frame: Frame {
            first: number_of(asked.first),
            last: number_of(asked.last),
        },
        form,
    }
}
