//! The end of a run: its threads are joined, its host is closed, and what it leaves is said.

ghost use Rattle.std.specs.Prelude.{◌≡◌, Ok, IfOk, MatchResult, length, string_bytes};
ghost use Rattle.rv_input.specs.Coming.{Reading};
ghost use Rattle.rv_run.specs.Beside.{moment};
ghost use Rattle.rv_run.specs.Finishing.{FailsByMeans, entries_line};
ghost use Rattle.rv_run.specs.FinishingBeside.{CountsWith, FinishesWith, TakesLeave, UnclosedWith};
ghost use Rattle.rv_run.specs.Staging.{Fails};
ghost use Rattle.rv_staff.specs.Saying.{Known, Says};

use crate::chores::Chores;
use crate::command::of_io;
use crate::outputs::{KeptFailure, Outputs};
use crate::serving::of_run;
use rv_crew::crew::Closed;
use rv_fault::Failure;
use rv_staff::{Session, say, say_lost};
use std::alloc::{AllocError, Global};
use std::io;
use std::io::Write;
use std::sync::Wait;
use std::thread::Threads;

/// What a write comes to.
pub fn wrote(written: io::Result<()>) -> Result<(), Failure>
    ensures same { MatchResult written (λ _. result ≡ Ok tt) (λ _. Fails result) }
    ensures means { FailsByMeans result }
{
    match written {
        Ok(()) => Ok(()),
        Err(e) => Err(of_io(e)),
    }
}

// The last line of a run.
fn last_line(alloc: Global, entries: usize) -> Result<String, AllocError>
    ensures { IfOk result (λ line. string_bytes line ≡ entries_line entries) }
{
    format!(in alloc; "entries {entries}\n")
}

// Says how long the journal is.
fn say_entries<W: Write>(alloc: Global, entries: usize, writer: &mut W) -> Result<(), Failure>
    ensures said { Says (W.contents writer.old) (W.contents writer.new) (entries_line entries) result }
    ensures means { FailsByMeans result }
{
    match last_line(alloc, entries) {
        Ok(line) => wrote(say(writer, line.as_str())),
        Err(_) => Err(Failure::Memory),
    }
}

// Where all went well, says how long the journal is.
fn count<W: Write>(
    alloc: Global,
    entries: usize,
    kept: Result<(), KeptFailure>,
    writer: &mut W,
) -> Result<(), KeptFailure>
    ensures { CountsWith (W.contents writer.old) (W.contents writer.new) entries kept result }
{
    match kept {
        Ok(()) => of_run(say_entries(alloc, entries, writer)),
        Err(failure) => Err(failure),
    }
}

// The failure of a session that wasn't closed for want of memory.
fn unclosed(served: Result<(), KeptFailure>) -> Result<(), KeptFailure>
    ensures { UnclosedWith served result }
{
    match served {
        Ok(()) => Err(KeptFailure::Run(Failure::Memory)),
        Err(failure) => Err(failure),
    }
}

// Does what is left to do, names the actors whose ports were lost and, where all went well, says how long the journal is.
fn take_leave<T, W: Write, E: Write, C: Chores<T, W, E>>(
    rt: &T,
    alloc: Global,
    closed: Closed,
    served: Result<(), KeptFailure>,
    chores: &mut C,
    outputs: &mut Outputs<W, E>,
) -> Result<(), KeptFailure>
    ensures { TakesLeave C.does closed chores.old (W.contents outputs.old.writer) (E.contents outputs.old.errors)
        chores.new (W.contents outputs.new.writer) (E.contents outputs.new.errors) served result }
{
    let kept = chores.close(rt, &closed, served, &mut outputs.errors);
    let _ = say_lost(
        alloc,
        closed.host.catalogue(),
        closed.lost.as_slice(),
        &mut outputs.errors,
    );
    count(alloc, closed.host.used(), kept, &mut outputs.writer)
}

/// Ends a session that was served: its channels are closed, its threads joined, but for those that chores have given up, and what it
/// leaves is said.
pub(crate) fn finish<T: Threads + Wait, W: Write, E: Write, C: Chores<T, W, E>>(
    rt: &T,
    session: Session,
    served: Result<(), KeptFailure>,
    chores: &mut C,
    outputs: &mut Outputs<W, E>,
) -> Result<(), KeptFailure>
    ensures { (input : Reading) (left : Known) → FinishesWith C.does
        (moment chores.old session.staff (W.contents outputs.old.writer) input left (E.contents outputs.old.errors))
        chores.new (W.contents outputs.new.writer) (E.contents outputs.new.errors) served result }
{
    let alloc = session.alloc;
    let ended = session.end(rt, chores.grace());
    match ended {
        Some(closed) => take_leave(rt, alloc, closed, served, chores, outputs),
        None => unclosed(served),
    }
}
