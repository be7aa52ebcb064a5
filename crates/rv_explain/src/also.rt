//! Further faults of the names of a unit text, each a line below what is said of the first.

use crate::spot::spot_of;
use rv_cause::cause::Cause;
use rv_cause::known::Known;
use rv_fault::Part;
use rv_shown::Shown;
use std::alloc::{AllocError, Global};
use std::fmt;

/// A further fault: where it stands in the script, and what is wrong there.
#[derive(Drop)]
pub(crate) struct Also {
    // The number of the line, from 1.
    number: usize,
    column: usize,
    sentence: String,
}

/// A further fault of the text of a part, by its cause, where this is known.
pub(crate) fn also_of(
    alloc: Global,
    part: &Part<'_>,
    cause: &Cause<'_>,
    known: &Known<'_>,
) -> Result<Also, AllocError> {
    let spot = spot_of(part, cause.at);
    let other = spot_of(part, cause.other.unwrap_or(cause.at));
    Ok(Also {
        number: spot.number,
        column: spot.column(),
        sentence: cause.sentence(alloc, known, other.number)?,
    })
}

impl fmt::Display for Also {
    fn fmt<W: fmt::Write>(&self, f: &mut fmt::Formatter<W>) -> fmt::Result {
        let number = self.number;
        let column = self.column;
        let sentence = Shown {
            text: self.sentence.as_str(),
        };
        write!(f, "also: {number}:{column}: {sentence}\n")
    }
}
