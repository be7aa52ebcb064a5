//! Reviews over any readers and any writer.

ghost use Rattle.std.specs.Prelude.{◌≤◌, IfSome, List, Some, length, true, false};
ghost use Rattle.rv_shape.specs.Shape.{Shape};
ghost use Rattle.rv_history.specs.Legal.{empty};
ghost use Rattle.rv_history.specs.declared.limits.Limits.{Limits};
ghost use Rattle.rv_verdict.specs.Audits.{AuditsScript, AuditsText};
ghost use Rattle.rv_verdict.specs.Brought.{AreLimits};
ghost use Rattle.rv_review.specs.Reviews.{Reviews, ReviewsFile, ReviewsSection};
ghost use Rattle.rv_script.specs.UnitTexts.{without_returns};
ghost use Rattle.rv_script.specs.Whole.{most_bytes};

use crate::review::{Review, judge};
use rv_audit::observer::{Nobody, Watch};
use rv_fault::Failure;
use rv_history::limits::Limits;
use rv_script::unit_text::unit_text;
use rv_script::{read_script, text_of};
use rv_shape::shape::UnitShape;
use rv_verdict::{Audited, script_of};
use std::alloc::Global;
use std::io::{Read, Write};

// Reviews the journal of a section.
fn review_section<W: Write, O: Review>(
    alloc: Global,
    writer: &mut W,
    limits: Limits,
    units: &[UnitShape],
    journal: &str,
    observer: O,
) -> Result<Audited, Failure>
    requires { AreLimits limits }
    ensures { O.follows observer observer units.now (empty limits) →
        Reviews (O.says observer) (Some (without_returns journal.now)) false (W.contents writer.old) (W.contents writer.new) limits units.now result }
{
    let journal = unit_text(alloc, journal)?;
    let mut bytes = journal.as_bytes();
    judge(
        alloc,
        &mut bytes,
        false,
        &mut Nobody {},
        writer,
        limits,
        units,
        observer,
    )
}

// Reviews the journal that the text of a script brings.
fn review_text<W: Write, O: Review>(
    alloc: Global,
    writer: &mut W,
    text: &str,
    observer: O,
) -> Result<Audited, Failure>
    requires { length text.now ≤ most_bytes }
    ensures { ((limits : Limits) (units : List Shape) → O.follows observer observer units (empty limits)) →
        AuditsText true (ReviewsSection (O.says observer)) (W.contents writer.old) (W.contents writer.new) text.now result }
{
    let (limits, given) = script_of(alloc, text, true)?;
    review_section(
        alloc,
        writer,
        limits,
        given.units(),
        given.journal(),
        observer,
    )
}

/// Judges the journal that a script brings in a section, without each carriage return that stands before a line feed, and writes what a
/// review says of it where it is legal, else what an audit says.
///
/// # Errors
/// `Refused` where a section isn't what it should be; `Memory` and `Io` as the first growth, read or write that fails.
pub fn review<R: Read, W: Write, O: Review>(
    alloc: Global,
    reader: &mut R,
    writer: &mut W,
    observer: O,
) -> Result<Audited, Failure>
    ensures { ((limits : Limits) (units : List Shape) → O.follows observer observer units (empty limits)) →
        IfSome (R.remaining reader.old) (λ script.
        AuditsScript true (ReviewsSection (O.says observer)) (W.contents writer.old) (W.contents writer.new) script result) }
{
    let bytes = read_script(alloc, reader)?;
    let text = text_of(bytes.as_slice())?;
    review_text(alloc, writer, text, observer)
}

// Reviews what a reader gives over what the text of a script brings.
fn review_file_text<J: Read, W: Write, H: Watch, O: Review>(
    alloc: Global,
    journal: &mut J,
    takes_torn: bool,
    watch: &mut H,
    writer: &mut W,
    text: &str,
    observer: O,
) -> Result<Audited, Failure>
    requires { length text.now ≤ most_bytes }
    ensures { ((limits : Limits) (units : List Shape) → O.follows observer observer units (empty limits)) →
        AuditsText false (ReviewsFile (O.says observer) (J.remaining journal.old) takes_torn) (W.contents writer.old) (W.contents writer.new) text.now result }
{
    let (limits, given) = script_of(alloc, text, false)?;
    judge(
        alloc,
        journal,
        takes_torn,
        watch,
        writer,
        limits,
        given.units(),
        observer,
    )
}

/// Judges the journal that a reader of its own gives, over the sections of a script, and writes what a review says of it where it is
/// legal, else what an audit says. Where `takes_torn`, a last line of at most 162,304 bytes without its line feed is taken as cut off.
///
/// # Errors
/// As `review`. A section that holds a journal is refused.
pub fn review_file<R: Read, J: Read, W: Write, H: Watch, O: Review>(
    alloc: Global,
    reader: &mut R,
    journal: &mut J,
    takes_torn: bool,
    watch: &mut H,
    writer: &mut W,
    observer: O,
) -> Result<Audited, Failure>
    ensures { ((limits : Limits) (units : List Shape) → O.follows observer observer units (empty limits)) →
        IfSome (R.remaining reader.old) (λ script.
        AuditsScript false (ReviewsFile (O.says observer) (J.remaining journal.old) takes_torn) (W.contents writer.old) (W.contents writer.new) script result) }
{
    let bytes = read_script(alloc, reader)?;
    let text = text_of(bytes.as_slice())?;
    review_file_text(alloc, journal, takes_torn, watch, writer, text, observer)
}
