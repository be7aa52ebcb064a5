//! The review that draws a timeline.

ghost use Rattle.std.specs.Prelude.{IfSome, true, false};
ghost use Rattle.rv_verdict.specs.Audits.{AuditsScript};
ghost use Rattle.rv_review.specs.Reviews.{ReviewsFile, ReviewsSection};
ghost use Rattle.rv_timeline.specs.Timelines.{timeline_text};

use crate::review::Review;
use crate::reviewing::{review, review_file};
use rv_audit::observer::Watch;
use rv_fault::Failure;
use rv_shape::catalogue::Catalogue;
use rv_timeline::timeline::{Timeline, Wish};
use rv_verdict::Audited;
use std::alloc::{AllocError, Global};
use std::io::{Read, Write};

impl<'f> Review for Timeline<'f> {
    ghost use Rattle.rv_timeline.specs.Timelines.{timeline_text};

    ghost says = { λ begun h. timeline_text begun.wish h };

    fn text(self, _alloc: Global, catalogue: &Catalogue) -> Result<String, AllocError> {
        self.into_text(catalogue)
    }
}

/// Judges the journal that a script brings in a section, without each carriage return that stands before a line feed. Where it is legal,
/// its timeline is written, as it is wished, and nothing else; where it isn't, what an audit says.
///
/// # Errors
/// As `refusals`.
pub fn timeline<R: Read, W: Write>(
    alloc: Global,
    reader: &mut R,
    writer: &mut W,
    wish: Wish<'_>,
) -> Result<Audited, Failure>
    ensures { IfSome (R.remaining reader.old) (λ script.
        AuditsScript true (ReviewsSection (timeline_text wish.entry)) (W.contents writer.old) (W.contents writer.new) script result) }
{
    let observer = Timeline::new(alloc, wish);
    review(alloc, reader, writer, observer)
}

/// The same of a journal that a reader of its own gives, over the sections of a script, as `refusals_file`.
///
/// # Errors
/// As `refusals`. A section that holds a journal is refused.
pub fn timeline_file<R: Read, J: Read, W: Write, H: Watch>(
    alloc: Global,
    reader: &mut R,
    journal: &mut J,
    takes_torn: bool,
    watch: &mut H,
    writer: &mut W,
    wish: Wish<'_>,
) -> Result<Audited, Failure>
    ensures { IfSome (R.remaining reader.old) (λ script.
        AuditsScript false (ReviewsFile (timeline_text wish.entry) (J.remaining journal.old) takes_torn) (W.contents writer.old) (W.contents writer.new) script result) }
{
    let observer = Timeline::new(alloc, wish);
    review_file(alloc, reader, journal, takes_torn, watch, writer, observer)
}
