//! What is said below the line of a fault.

use crate::also::Also;
use crate::excerpt::Excerpt;
use crate::spot::{Spot, spot_of};
use rv_cause::cause::Cause;
use rv_cause::known::Known;
use rv_fault::Part;
use rv_shown::Shown;
use std::alloc::{AllocError, Global};
use std::fmt;

/// What is said below the line of a fault: the line of the script where it stands, with a caret under the word at fault, and
/// what is wrong with that word.
#[derive(Drop)]
pub struct Explanation<'a> {
    excerpt: Option<Excerpt<'a>>,
    sentence: String,
    // Further faults of the same text.
    also: Vec<Also>,
}

// What is said of a cause at a place, whose other place stands in a line, where this is known.
fn at_spot<'a>(
    alloc: Global,
    spot: Spot<'a>,
    cause: &Cause<'_>,
    known: &Known<'_>,
    line: usize,
) -> Result<Explanation<'a>, AllocError> {
    Ok(Explanation {
        excerpt: Some(Excerpt::new(spot)),
        sentence: cause.sentence(alloc, known, line)?,
        also: Vec::new(alloc),
    })
}

/// What is said of a cause, whose place counts in a line, where this is known.
pub(crate) fn of_line<'a>(
    alloc: Global,
    spot: &Spot<'a>,
    cause: &Cause<'_>,
    known: &Known<'_>,
) -> Result<Explanation<'a>, AllocError> {
    at_spot(alloc, spot.at(cause.at), cause, known, spot.number)
}

/// The same of one whose place counts in a part's text, without carriage returns before line feeds.
pub(crate) fn of_part<'a>(
    alloc: Global,
    part: &Part<'a>,
    cause: &Cause<'_>,
    known: &Known<'_>,
) -> Result<Explanation<'a>, AllocError> {
    let other = spot_of(part, cause.other.unwrap_or(cause.at));
    at_spot(alloc, spot_of(part, cause.at), cause, known, other.number)
}

/// The same of one whose other place stands in this line of the script.
pub(crate) fn of_part_beside<'a>(
    alloc: Global,
    part: &Part<'a>,
    cause: &Cause<'_>,
    known: &Known<'_>,
    line: usize,
) -> Result<Explanation<'a>, AllocError> {
    at_spot(alloc, spot_of(part, cause.at), cause, known, line)
}

/// The same of one without a place.
pub(crate) fn of_script<'a>(alloc: Global, sentence: &str) -> Result<Explanation<'a>, AllocError> {
    Ok(Explanation {
        excerpt: None,
        sentence: String::from_str(alloc, sentence)?,
        also: Vec::new(alloc),
    })
}

/// What is said of a place by a sentence of its own.
pub(crate) fn of_place<'a>(alloc: Global, spot: Spot<'a>, sentence: String) -> Explanation<'a> {
    Explanation {
        excerpt: Some(Excerpt::new(spot)),
        sentence,
        also: Vec::new(alloc),
    }
}

/// Nothing, where memory was refused.
pub(crate) fn nothing<'a>(alloc: Global) -> Explanation<'a> {
    Explanation {
        excerpt: None,
        sentence: String::new(alloc),
        also: Vec::new(alloc),
    }
}

impl<'a> Explanation<'a> {
    /// The same, with further faults of the text.
    pub(crate) fn with_also(self, also: Vec<Also>) -> Explanation<'a> {
        Explanation {
            excerpt: self.excerpt,
            sentence: self.sentence,
            also,
        }
    }
}

impl fmt::Display for Explanation<'_> {
    fn fmt<W: fmt::Write>(&self, f: &mut fmt::Formatter<W>) -> fmt::Result {
        if let Some(excerpt) = self.excerpt {
            write!(f, "{excerpt}")?;
        }
        if self.sentence.is_empty() {
            return f.write_str("  = memory was refused for more\n");
        }
        let sentence = Shown {
            text: self.sentence.as_str(),
        };
        write!(f, "  = {sentence}\n")?;
        for also in &self.also {
            write!(f, "{also}")?;
        }
        Ok(())
    }
}
