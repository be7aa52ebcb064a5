//! The review that writes each entry as a line of JSON.

ghost use Rattle.std.specs.Prelude.{IfSome, true, false};
ghost use Rattle.rv_verdict.specs.Audits.{AuditsScript};
ghost use Rattle.rv_review.specs.Reviews.{ReviewsFile, ReviewsSection};
ghost use Rattle.rv_export.specs.Exports.{exported};

use crate::review::Review;
use crate::reviewing::{review, review_file};
use rv_audit::observer::Watch;
use rv_export::export::Export;
use rv_fault::Failure;
use rv_shape::catalogue::Catalogue;
use rv_verdict::Audited;
use std::alloc::{AllocError, Global};
use std::io::{Read, Write};

impl Review for Export {
    ghost use Rattle.rv_export.specs.Exports.{exported};

    ghost says = { λ begun h. exported h };

    fn text(self, _alloc: Global, _catalogue: &Catalogue) -> Result<String, AllocError> {
        Ok(self.into_text())
    }
}

/// Judges the journal that a script brings in a section, without each carriage return that stands before a line feed. Where it is legal,
/// each entry is written as a line of JSON, in order, and nothing else; where it isn't, what an audit says.
///
/// # Errors
/// As `refusals`.
pub fn export<R: Read, W: Write>(
    alloc: Global,
    reader: &mut R,
    writer: &mut W,
) -> Result<Audited, Failure>
    ensures { IfSome (R.remaining reader.old) (λ script.
        AuditsScript true (ReviewsSection exported) (W.contents writer.old) (W.contents writer.new) script result) }
{
    let observer = Export::new(alloc);
    review(alloc, reader, writer, observer)
}

/// The same of a journal that a reader of its own gives, over the sections of a script, as `refusals_file`.
///
/// # Errors
/// As `refusals`. A section that holds a journal is refused.
pub fn export_file<R: Read, J: Read, W: Write, H: Watch>(
    alloc: Global,
    reader: &mut R,
    journal: &mut J,
    takes_torn: bool,
    watch: &mut H,
    writer: &mut W,
) -> Result<Audited, Failure>
    ensures { IfSome (R.remaining reader.old) (λ script.
        AuditsScript false (ReviewsFile exported (J.remaining journal.old) takes_torn) (W.contents writer.old) (W.contents writer.new) script result) }
{
    let observer = Export::new(alloc);
    review_file(alloc, reader, journal, takes_torn, watch, writer, observer)
}
