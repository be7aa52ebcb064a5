//! Raised lines.

ghost use Rattle.std.specs.Prelude.{codes, IfNone, IfSome};
ghost use Rattle.rv_shape.specs.Catalogue.{handler};
ghost use Rattle.rv_behind.specs.Events.{catalogue_of};
ghost use Rattle.rv_staff.specs.Saying.{Says, SaysRaised};

use crate::saying::{NO_MEMORY, say, say_no_thread};
use crate::session::{LineChannel, Session};
use crossbeam_channel::SendError;
use std::io;
use std::io::Write;
use std::sync::Wait;

// What came of a raise.
#[derive(Clone, Copy, Drop)]
enum Raised {
    // The thread of the line is told.
    Told,
    // The line has no thread.
    Unheard,
    // Memory was refused.
    NoMemory,
}

// Tells the thread of a line that it is raised.
fn tell<R: Wait>(rt: &R, channel: &LineChannel) -> Raised {
    match channel.sender.send(rt, channel.line) {
        Ok(()) => Raised::Told,
        Err(SendError::OutOfMemory(_)) => Raised::NoMemory,
        Err(SendError::Disconnected(_)) => Raised::Unheard,
    }
}

// Tells the thread of a line, if there is one.
fn tell_line<R: Wait>(rt: &R, channels: &[LineChannel], line: u8) -> Raised {
    for channel in channels {
        if channel.line == line {
            return tell(rt, channel);
        }
    }
    Raised::Unheard
}

// Says what came of the raise of a line that has a handler.
fn tell_of<W: Write>(session: &Session, line: u8, raised: Raised, writer: &mut W) -> io::Result<()>
    ensures { SaysRaised (W.contents writer.old) (W.contents writer.new) (catalogue_of session.now.staff.control.seen) line result }
{
    match raised {
        Raised::Told => say(writer, "raised\n"),
        Raised::NoMemory => say(writer, NO_MEMORY),
        Raised::Unheard => {
            let actor = line as usize + 1;
            say_no_thread(session.alloc, session.staff.catalogue(), actor, writer)
        }
    }
}

/// Raises a line 0 .. 9, and says what came of it: `unattached` where it has no handler.
pub fn raise<R: Wait, W: Write>(
    rt: &R,
    session: &Session,
    line: u8,
    writer: &mut W,
) -> io::Result<()>
    ensures none { IfNone (handler (catalogue_of session.now.staff.control.seen) line) (Says (W.contents writer.old) (W.contents writer.new) (codes "unattached\n") result) }
    ensures some { IfSome (handler (catalogue_of session.now.staff.control.seen) line)
        (λ _. SaysRaised (W.contents writer.old) (W.contents writer.new) (catalogue_of session.now.staff.control.seen) line result) }
{
    match session.staff.catalogue().handler(line as usize) {
        None => say(writer, "unattached\n"),
        Some(_) => {
            let raised = tell_line(rt, session.channels.as_slice(), line);
            tell_of(session, line, raised, writer)
        }
    }
}
