//! What a thread does beside the job of a task: it reads and writes the pipes.

ghost use Rattle.std.specs.Io.Take.{take_inner};
ghost use Rattle.rv_pipes.specs.Carrying.{Answers, Carries, CarriesAll, CarriesNext, Writes};

use crate::line::Line;
use crate::lines::{Next, next_line};
use crate::replies::STOPPED;
use crossbeam_channel::{Receiver, Sender};
use rv_script::write_whole;
use std::alloc::Global;
use std::io;
use std::io::{BufRead, Take, Write};
use std::sync::Wait;

// What is told of a line that is too long.
const TOO_LONG: &[u8] = b"bad request: it is longer than 4096 bytes\n";

/// Why pipes aren't read and written any more.
#[derive(Drop)]
pub enum CarryFault {
    /// The requests can't be read.
    Read(io::Error),
    /// What they come to can't be written.
    Write(io::Error),
}

/// What a job is handed.
#[derive(Drop)]
pub(crate) enum Asked {
    /// A request.
    Line(Line),
    /// The end of the requests.
    Over,
}

// Whether lines are carried on.
#[derive(Clone, Copy, Drop)]
enum Goes {
    On,
    Out,
}

/// The end at which a thread reads and writes the pipes of a task.
#[derive(Drop)]
pub struct Carrier {
    pub(crate) alloc: Global,
    pub(crate) requests: Sender<Asked>,
    pub(crate) replies: Receiver<Vec<u8>>,
    pub(crate) written: Sender<u8>,
}

// Writes a line.
#[tactic(auto, using(crate::proofs::Carried::flushed, crate::proofs::Carried::flushed_whole))]
fn write_line<W: Write>(writer: &mut W, line: &[u8]) -> Result<(), CarryFault>
    ensures { Writes line.now (W.contents writer.old) (W.contents writer.new) result }
{
    match write_whole(writer, line) {
        Ok(()) => match writer.flush() {
            Ok(()) => Ok(()),
            Err(e) => Err(CarryFault::Write(e)),
        },
        Err(e) => Err(CarryFault::Write(e)),
    }
}

impl Carrier {
    // Hands a request to the job, and gives what that came to; none where the job has ended.
    fn ask<R: Wait>(&self, rt: &R, line: Line) -> Option<Vec<u8>> {
        if self.requests.send(rt, Asked::Line(line)).is_err() {
            return None;
        }
        self.replies.recv(rt).ok()
    }

    // Carries a line to the job, and back what it came to. Behind the end of the job it is told that the task has stopped.
    fn carry_line<R: Wait, W: Write>(
        &self,
        rt: &R,
        line: Line,
        writer: &mut W,
    ) -> Result<Goes, CarryFault>
        ensures { Answers (W.contents writer.old) (W.contents writer.new) result }
    {
        let Some(reply) = self.ask(rt, line) else {
            write_line(writer, STOPPED)?;
            return Ok(Goes::Out);
        };
        write_line(writer, reply.as_slice())?;
        let _ = self.written.try_send(rt, 1);
        Ok(Goes::On)
    }

    // Carries what was read, if anything was.
    fn carry_read<R: Wait, W: Write>(
        &self,
        rt: &R,
        read: io::Result<Next>,
        writer: &mut W,
    ) -> Result<Goes, CarryFault>
        ensures { Carries read (W.contents writer.old) (W.contents writer.new) result }
    {
        match read {
            Ok(Next::Line(line)) => self.carry_line(rt, line, writer),
            Ok(Next::TooLong) => {
                write_line(writer, TOO_LONG)?;
                Ok(Goes::On)
            }
            Ok(Next::Over) => Ok(Goes::Out),
            Err(e) => Err(CarryFault::Read(e)),
        }
    }

    // Reads a line, and carries it.
    fn carry_next<R: Wait, I: BufRead, W: Write>(
        &self,
        rt: &R,
        reader: &mut Take<I>,
        writer: &mut W,
    ) -> Result<Goes, CarryFault>
        ensures { CarriesNext (I.remaining (take_inner reader.old)) (W.contents writer.old) (W.contents writer.new) result }
    {
        let read = next_line(self.alloc, reader);
        self.carry_read(rt, read, writer)
    }

    // Carries lines, each with what it came to before the next is read.
    fn carry_all<R: Wait, I: BufRead + Drop, W: Write>(
        &self,
        rt: &R,
        reader: I,
        writer: &mut W,
    ) -> Result<(), CarryFault>
        ensures { CarriesAll (W.contents writer.old) (W.contents writer.new) result }
    {
        let mut lines = reader.take(0);
        for _ in rt.forever() {
            match self.carry_next(rt, &mut lines, writer) {
                Ok(Goes::On) => {}
                Ok(Goes::Out) => return Ok(()),
                Err(e) => return Err(e),
            }
        }
        unreachable!()
    }

    /// Carries lines, each with what it came to before the next is read, up to the end of the requests or of the job; and tells
    /// the job their end.
    ///
    /// # Errors
    /// As the first read or write that fails.
    pub fn carry<R: Wait, I: BufRead + Drop, W: Write>(
        self,
        rt: &R,
        reader: I,
        writer: &mut W,
    ) -> Result<(), CarryFault>
        ensures { CarriesAll (W.contents writer.old) (W.contents writer.new) result }
    {
        let carried = self.carry_all(rt, reader, writer);
        self.end(rt);
        carried
    }

    /// Tells the job the end of the requests.
    pub fn end<R: Wait>(&self, rt: &R) {
        let _ = self.requests.send(rt, Asked::Over);
    }
}
