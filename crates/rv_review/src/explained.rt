//! The review that explains an entry.

ghost use Rattle.std.specs.Prelude.{IfSome, true, false};
ghost use Rattle.rv_verdict.specs.Audits.{AuditsScript};
ghost use Rattle.rv_review.specs.Reviews.{ReviewsFile, ReviewsSection};
ghost use Rattle.rv_explained.specs.Explanations.{explanation};

use crate::review::Review;
use crate::reviewing::{review, review_file};
use rv_audit::observer::Watch;
use rv_explained::explained::Explained;
use rv_fault::Failure;
use rv_shape::catalogue::Catalogue;
use rv_verdict::Audited;
use std::alloc::{AllocError, Global};
use std::io::{Read, Write};

impl Review for Explained {
    ghost use Rattle.rv_explained.specs.Explanations.{explanation};

    ghost says = { λ begun h. explanation begun.entry h };

    fn text(self, _alloc: Global, _catalogue: &Catalogue) -> Result<String, AllocError> {
        self.into_text()
    }
}

/// Judges the journal that a script brings in a section, without each carriage return that stands before a line feed. Where it is legal,
/// it is written why the entry of a number was answered so and what became of it, and nothing else; where it isn't, what an audit says.
/// Of a number that no entry has it is written that the journal has none.
///
/// # Errors
/// As `refusals`.
pub fn explain<R: Read, W: Write>(
    alloc: Global,
    reader: &mut R,
    writer: &mut W,
    entry: usize,
) -> Result<Audited, Failure>
    ensures { IfSome (R.remaining reader.old) (λ script.
        AuditsScript true (ReviewsSection (explanation entry)) (W.contents writer.old) (W.contents writer.new) script result) }
{
    let observer = Explained::new(alloc, entry);
    review(alloc, reader, writer, observer)
}

/// The same of a journal that a reader of its own gives, over the sections of a script, as `refusals_file`.
///
/// # Errors
/// As `refusals`. A section that holds a journal is refused.
pub fn explain_file<R: Read, J: Read, W: Write, H: Watch>(
    alloc: Global,
    reader: &mut R,
    journal: &mut J,
    takes_torn: bool,
    watch: &mut H,
    writer: &mut W,
    entry: usize,
) -> Result<Audited, Failure>
    ensures { IfSome (R.remaining reader.old) (λ script.
        AuditsScript false (ReviewsFile (explanation entry) (J.remaining journal.old) takes_torn) (W.contents writer.old) (W.contents writer.new) script result) }
{
    let observer = Explained::new(alloc, entry);
    review_file(alloc, reader, journal, takes_torn, watch, writer, observer)
}
