//! Request lines are served one after another, each answered before the next is read.

ghost use Rattle.std.specs.Prelude.{◌≡◌};
ghost use Rattle.std.specs.Io.Iter.{lines_known_bytes};
ghost use Rattle.rv_port.specs.Calls.{Stays};
ghost use Rattle.rv_port.specs.Ports.{pass_of};
ghost use Rattle.rv_actor.specs.Serving.{AnswersLine, Serves, ServesItem, ServesNext, ServesRead, Tells, TellsFault, at, is_no_text};

use crate::asking::perform_asked;
use crate::outcome::Outcome;
use rv_port::port::Port;
use rv_script::write_whole;
use rv_shape::catalogue::Catalogue;
use std::alloc::Global;
use std::io;
use std::io::{BufRead, ErrorKind, Lines, Write};
use std::sync::Wait;

/// Whether lines are read on.
#[derive(Clone, Copy, Drop)]
pub enum Goes {
    /// The next line is read.
    On,
    /// No line is read any more.
    Out,
}

/// Where the requests of a task come from, and where it is told what they came to.
#[derive(Drop)]
pub struct Desk<I, W> {
    pub(crate) alloc: Global,
    pub(crate) lines: Lines<I, Global>,
    pub(crate) writer: W,
}

impl<I: BufRead, W: Write> Desk<I, W> {
    /// Requests are read from a reader, one a line, and what they come to is written.
    pub fn new(alloc: Global, reader: I, writer: W) -> Desk<I, W>
        ensures left { lines_known_bytes I.remaining result.lines ≡ I.remaining reader }
        ensures writer { result.writer ≡ writer }
    {
        Desk {
            alloc,
            lines: reader.lines(alloc),
            writer,
        }
    }
}

// Tells what a line came to, and gives whether lines are read on behind it.
#[tactic(auto, using(rv_script::proofs::Wrote::nothing_yet))]
fn tell<W: Write>(alloc: Global, outcome: &Outcome, writer: &mut W) -> io::Result<Goes>
    ensures { Tells outcome.now (W.contents writer.old) (W.contents writer.new) result }
{
    let Ok(line) = outcome.line(alloc) else {
        return Err(io::Error::from(ErrorKind::OutOfMemory));
    };
    match write_whole(writer, line.as_str().as_bytes()) {
        Ok(()) => Ok(outcome.goes_behind()),
        Err(e) => Err(e),
    }
}

// Performs what a line asks, and tells what it came to.
fn answer<R: Wait, W: Write>(
    rt: &R,
    port: &mut Port,
    catalogue: &Catalogue,
    alloc: Global,
    line: &str,
    writer: &mut W,
) -> io::Result<Goes>
    ensures answers { AnswersLine catalogue.now line.now port.old (W.contents writer.old) port.new (W.contents writer.new) result }
    ensures stays { Stays (pass_of port.old) (pass_of port.new) }
{
    let outcome = perform_asked(rt, port, catalogue, line);
    tell(alloc, &outcome, writer)
}

// Whether a line was read that is no text.
fn is_no_text(error: &io::Error) -> bool
    ensures { result ≡ is_no_text error.now }
{
    error.kind() == ErrorKind::InvalidData
}

// Tells of a line that it is no text. Of a read that failed nothing is told.
#[tactic(auto, using(crate::proofs::Served::tells_text, crate::proofs::Served::tells_nothing))]
fn tell_fault<W: Write>(alloc: Global, error: io::Error, writer: &mut W) -> io::Result<Goes>
    ensures { TellsFault error (W.contents writer.old) (W.contents writer.new) result }
{
    if is_no_text(&error) {
        return tell(alloc, &Outcome::NoText, writer);
    }
    Err(error)
}

// Answers what was read: a line, or why none could be.
fn serve_read<R: Wait, W: Write>(
    rt: &R,
    port: &mut Port,
    catalogue: &Catalogue,
    alloc: Global,
    read: io::Result<String>,
    writer: &mut W,
) -> io::Result<Goes>
    ensures serves { ServesRead catalogue.now read port.old (W.contents writer.old) port.new (W.contents writer.new) result }
    ensures stays { Stays (pass_of port.old) (pass_of port.new) }
{
    match read {
        Ok(line) => answer(rt, port, catalogue, alloc, line.as_str(), writer),
        Err(e) => tell_fault(alloc, e, writer),
    }
}

// Answers what was read, if anything was.
fn serve_item<R: Wait, W: Write>(
    rt: &R,
    port: &mut Port,
    catalogue: &Catalogue,
    alloc: Global,
    item: Option<io::Result<String>>,
    writer: &mut W,
) -> io::Result<Goes>
    ensures serves { ServesItem catalogue.now item port.old (W.contents writer.old) port.new (W.contents writer.new) result }
    ensures stays { Stays (pass_of port.old) (pass_of port.new) }
{
    match item {
        Some(read) => serve_read(rt, port, catalogue, alloc, read, writer),
        None => Ok(Goes::Out),
    }
}

// Reads a line, performs what it asks, and tells what it came to.
fn serve_next<R: Wait, I: BufRead + Drop, W: Write>(
    rt: &R,
    port: &mut Port,
    catalogue: &Catalogue,
    desk: &mut Desk<I, W>,
) -> io::Result<Goes>
    ensures serves { ServesNext catalogue.now
        (at port.old (lines_known_bytes I.remaining desk.old.lines) (W.contents desk.old.writer))
        (at port.new (lines_known_bytes I.remaining desk.new.lines) (W.contents desk.new.writer))
        result }
    ensures stays { Stays (pass_of port.old) (pass_of port.new) }
{
    let item = desk.lines.next();
    serve_item(rt, port, catalogue, desk.alloc, item, &mut desk.writer)
}

/// Serves request lines one after another, each answered before the next is read, until one ends that: `finish`, one that is
/// stopped, one that isn't UTF-8, or the end of the input.
///
/// # Errors
/// As the first read or write that fails. `OutOfMemory` where memory for a line or an answer was refused.
pub fn serve<R: Wait, I: BufRead + Drop, W: Write>(
    rt: &R,
    port: &mut Port,
    catalogue: &Catalogue,
    desk: &mut Desk<I, W>,
) -> io::Result<()>
    ensures serves { Serves catalogue.now
        (at port.old (lines_known_bytes I.remaining desk.old.lines) (W.contents desk.old.writer))
        (at port.new (lines_known_bytes I.remaining desk.new.lines) (W.contents desk.new.writer))
        result }
    ensures stays { Stays (pass_of port.old) (pass_of port.new) }
{
    for _ in rt.forever() {
        match serve_next(rt, port, catalogue, desk) {
            Ok(Goes::On) => {}
            Ok(Goes::Out) => return Ok(()),
            Err(e) => return Err(e),
        }
    }
    unreachable!()
}
