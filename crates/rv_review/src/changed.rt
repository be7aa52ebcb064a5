//! The review of what another list would have decided otherwise.

ghost use Rattle.std.specs.Prelude.{IfSome, true, false};
ghost use Rattle.rv_verdict.specs.Audits.{AuditsScript};
ghost use Rattle.rv_whatif.specs.Changes.{whatif_text};
ghost use Rattle.rv_review.specs.Reviews.{ReviewsFile, ReviewsSection};

use crate::review::Review;
use crate::reviewing::{review, review_file};
use rv_access::AccessList;
use rv_audit::observer::Watch;
use rv_fault::Failure;
use rv_refused::Filter;
use rv_shape::catalogue::Catalogue;
use rv_verdict::Audited;
use rv_whatif::whatif::WhatIf;
use std::alloc::{AllocError, Global};
use std::io::{Read, Write};

impl<'f> Review for WhatIf<'f> {
    ghost use Rattle.rv_whatif.specs.Changes.{whatif_text};

    ghost says = { λ begun h. whatif_text begun.filter begun.list h };

    fn text(self, _alloc: Global, _catalogue: &Catalogue) -> Result<String, AllocError> {
        self.into_text()
    }
}

/// Judges the journal that a script brings in a section, without each carriage return that stands before a line feed. Where it is legal,
/// the calls, fired lines and hand-overs are written that a filter takes and a list would have decided otherwise than the list in force
/// did, each with both lines, and how many there are of each call; and nothing else. Where it isn't, what an audit says.
///
/// # Errors
/// As `refusals`.
pub fn what_if<R: Read, W: Write>(
    alloc: Global,
    reader: &mut R,
    writer: &mut W,
    filter: Filter<'_>,
    list: AccessList,
) -> Result<Audited, Failure>
    ensures { IfSome (R.remaining reader.old) (λ script.
        AuditsScript true (ReviewsSection (whatif_text filter.entry list)) (W.contents writer.old) (W.contents writer.new) script result) }
{
    let observer = WhatIf::new(alloc, filter, list);
    review(alloc, reader, writer, observer)
}

/// The same of a journal that a reader of its own gives, over the sections of a script, as `refusals_file`.
///
/// # Errors
/// As `refusals`. A section that holds a journal is refused.
pub fn what_if_file<R: Read, J: Read, W: Write, H: Watch>(
    alloc: Global,
    reader: &mut R,
    journal: &mut J,
    takes_torn: bool,
    watch: &mut H,
    writer: &mut W,
    filter: Filter<'_>,
    list: AccessList,
) -> Result<Audited, Failure>
    ensures { IfSome (R.remaining reader.old) (λ script.
        AuditsScript false (ReviewsFile (whatif_text filter.entry list) (J.remaining journal.old) takes_torn) (W.contents writer.old) (W.contents writer.new) script result) }
{
    let observer = WhatIf::new(alloc, filter, list);
    review_file(alloc, reader, journal, takes_torn, watch, writer, observer)
}
