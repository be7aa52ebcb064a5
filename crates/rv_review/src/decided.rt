//! The review of how often lines decided.

ghost use Rattle.std.specs.Prelude.{IfSome, true, false};
ghost use Rattle.rv_verdict.specs.Audits.{AuditsScript};
ghost use Rattle.rv_hits.specs.Hits.{hits_text};
ghost use Rattle.rv_review.specs.Reviews.{ReviewsFile, ReviewsSection};

use crate::review::Review;
use crate::reviewing::{review, review_file};
use rv_audit::observer::Watch;
use rv_fault::Failure;
use rv_hits::hits::Hits;
use rv_refused::Filter;
use rv_shape::catalogue::Catalogue;
use rv_verdict::Audited;
use std::alloc::{AllocError, Global};
use std::io::{Read, Write};

impl<'f> Review for Hits<'f> {
    ghost use Rattle.rv_hits.specs.Hits.{hits_text};

    ghost says = { λ begun h. hits_text begun.filter h };

    fn text(self, _alloc: Global, _catalogue: &Catalogue) -> Result<String, AllocError> {
        self.into_text()
    }
}

/// Judges the journal that a script brings in a section, without each carriage return that stands before a line feed. Where it is legal,
/// a row is written for each line of the lists that were in force, by its words: how often it decided what a filter takes, and how often
/// to grant; and nothing else. Where it isn't, what an audit says.
///
/// # Errors
/// As `refusals`.
pub fn hits<R: Read, W: Write>(
    alloc: Global,
    reader: &mut R,
    writer: &mut W,
    filter: Filter<'_>,
) -> Result<Audited, Failure>
    ensures { IfSome (R.remaining reader.old) (λ script.
        AuditsScript true (ReviewsSection (hits_text filter.entry)) (W.contents writer.old) (W.contents writer.new) script result) }
{
    let observer = Hits::new(alloc, filter);
    review(alloc, reader, writer, observer)
}

/// The same of a journal that a reader of its own gives, over the sections of a script, as `refusals_file`.
///
/// # Errors
/// As `refusals`. A section that holds a journal is refused.
pub fn hits_file<R: Read, J: Read, W: Write, H: Watch>(
    alloc: Global,
    reader: &mut R,
    journal: &mut J,
    takes_torn: bool,
    watch: &mut H,
    writer: &mut W,
    filter: Filter<'_>,
) -> Result<Audited, Failure>
    ensures { IfSome (R.remaining reader.old) (λ script.
        AuditsScript false (ReviewsFile (hits_text filter.entry) (J.remaining journal.old) takes_torn) (W.contents writer.old) (W.contents writer.new) script result) }
{
    let observer = Hits::new(alloc, filter);
    review_file(alloc, reader, journal, takes_torn, watch, writer, observer)
}
