//! The review of refused entries.

ghost use Rattle.std.specs.Prelude.{IfSome, true, false};
ghost use Rattle.rv_refused.specs.Refusals.{refusals_text};
ghost use Rattle.rv_verdict.specs.Audits.{AuditsScript};
ghost use Rattle.rv_review.specs.Reviews.{ReviewsFile, ReviewsSection};

use crate::review::Review;
use crate::reviewing::{review, review_file};
use rv_audit::observer::Watch;
use rv_fault::Failure;
use rv_refused::Filter;
use rv_refused::refusals::Refusals;
use rv_shape::catalogue::Catalogue;
use rv_verdict::Audited;
use std::alloc::{AllocError, Global};
use std::io::{Read, Write};

impl<'f> Review for Refusals<'f> {
    ghost use Rattle.rv_refused.specs.Refusals.{refusals_text};

    ghost says = { λ begun h. refusals_text begun.filter h };

    // The names are those of the entries, each of its own time.
    fn text(self, _alloc: Global, _catalogue: &Catalogue) -> Result<String, AllocError> {
        Ok(self.into_text())
    }
}

/// Judges the journal that a script brings in a section, without each carriage return that stands before a line feed. Where it is legal,
/// the lines of the refused entries that a filter takes are written, in the order of the entries, and nothing else; where it isn't, what
/// an audit says.
///
/// # Errors
/// `Refused` where a section isn't what it should be; `Memory` and `Io` as the first growth, read or write that fails.
pub fn refusals<R: Read, W: Write>(
    alloc: Global,
    reader: &mut R,
    writer: &mut W,
    filter: Filter<'_>,
) -> Result<Audited, Failure>
    ensures { IfSome (R.remaining reader.old) (λ script.
        AuditsScript true (ReviewsSection (refusals_text filter.entry)) (W.contents writer.old) (W.contents writer.new) script result) }
{
    let observer = Refusals::new(alloc, filter);
    review(alloc, reader, writer, observer)
}

/// The same of a journal that a reader of its own gives, over the sections of a script. Where `takes_torn`, a last line of at most
/// 162,304 bytes without its line feed is taken as cut off.
///
/// # Errors
/// As `refusals`. A section that holds a journal is refused.
pub fn refusals_file<R: Read, J: Read, W: Write, H: Watch>(
    alloc: Global,
    reader: &mut R,
    journal: &mut J,
    takes_torn: bool,
    watch: &mut H,
    writer: &mut W,
    filter: Filter<'_>,
) -> Result<Audited, Failure>
    ensures { IfSome (R.remaining reader.old) (λ script.
        AuditsScript false (ReviewsFile (refusals_text filter.entry) (J.remaining journal.old) takes_torn) (W.contents writer.old) (W.contents writer.new) script result) }
{
    let observer = Refusals::new(alloc, filter);
    review_file(alloc, reader, journal, takes_torn, watch, writer, observer)
}
