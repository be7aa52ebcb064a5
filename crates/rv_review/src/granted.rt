//! The review of who may call what.

ghost use Rattle.std.specs.Prelude.{IfSome, true, false};
ghost use Rattle.rv_verdict.specs.Audits.{AuditsScript};
ghost use Rattle.rv_review.specs.Reviews.{ReviewsFile, ReviewsSection};
ghost use Rattle.rv_rights.specs.Rights.{rights_text};

use crate::review::Review;
use crate::reviewing::{review, review_file};
use rv_access::AccessList;
use rv_audit::observer::Watch;
use rv_fault::Failure;
use rv_rights::rights::Rights;
use rv_rights::wish::Wish;
use rv_shape::catalogue::Catalogue;
use rv_verdict::Audited;
use std::alloc::{AllocError, Global};
use std::io::{Read, Write};

impl<'f> Review for Rights<'f> {
    ghost use Rattle.rv_rights.specs.Rights.{rights_text};

    ghost says = { λ begun h. rights_text begun.wish begun.other h };

    fn text(self, _alloc: Global, catalogue: &Catalogue) -> Result<String, AllocError> {
        self.into_text(catalogue)
    }
}

/// Judges the journal that a script brings in a section, without each carriage return that stands before a line feed. Where it is legal,
/// the rows of who is granted which call by its last list are written, of the callers and calls that a wish takes, and nothing else;
/// where it isn't, what an audit says. With another list the rows say where one of the two grants a call and the other doesn't.
///
/// # Errors
/// As `refusals`.
pub fn rights<R: Read, W: Write>(
    alloc: Global,
    reader: &mut R,
    writer: &mut W,
    wish: Wish<'_>,
    other: Option<AccessList>,
) -> Result<Audited, Failure>
    ensures { IfSome (R.remaining reader.old) (λ script.
        AuditsScript true (ReviewsSection (rights_text wish.entry other)) (W.contents writer.old) (W.contents writer.new) script result) }
{
    let observer = Rights::new(alloc, wish, other);
    review(alloc, reader, writer, observer)
}

/// The same of a journal that a reader of its own gives, over the sections of a script, as `refusals_file`.
///
/// # Errors
/// As `refusals`. A section that holds a journal is refused.
pub fn rights_file<R: Read, J: Read, W: Write, H: Watch>(
    alloc: Global,
    reader: &mut R,
    journal: &mut J,
    takes_torn: bool,
    watch: &mut H,
    writer: &mut W,
    wish: Wish<'_>,
    other: Option<AccessList>,
) -> Result<Audited, Failure>
    ensures { IfSome (R.remaining reader.old) (λ script.
        AuditsScript false (ReviewsFile (rights_text wish.entry other) (J.remaining journal.old) takes_torn) (W.contents writer.old) (W.contents writer.new) script result) }
{
    let observer = Rights::new(alloc, wish, other);
    review_file(alloc, reader, journal, takes_torn, watch, writer, observer)
}
