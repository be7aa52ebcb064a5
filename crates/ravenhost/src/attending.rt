//! An attended run up to the end of what it writes.

use crate::errors::StandardError;
use crate::status::Stop;
use rv_attend::{Follower, run_kept};
use rv_fault::Failure;
use rv_input::Input;
use rv_keep::Held;
use rv_outlet::{Outlet, is_unread};
use rv_run::outputs::{KeptFailure, Outputs};
use rv_staff::Hires;
use std::io;
use std::io::Write;
use std::sync::Wait;
use std::thread::Threads;
use std::time::Clock;

/// Attends to a run whose notes were told, and hands on what it wrote: no answer goes out whose entries the file couldn't take.
pub fn attend<R: Threads + Wait + Clock + Eprint, H: Hires, W: Write + Drop, F: Write>(
    rt: &R,
    hires: &H,
    is_coloured: bool,
    input: &mut Input,
    follower: &mut Follower<'_, R, F>,
    writer: W,
) -> (Result<(), KeptFailure>, io::Result<()>) {
    let mut outputs = Outputs {
        writer: Held::new(follower.alloc, writer),
        errors: StandardError { rt, is_coloured },
    };
    let done = run_kept(rt, hires, input, follower, &mut outputs);
    let flushed = match &done {
        Err(KeptFailure::File(_)) => Ok(()),
        _ => outputs.writer.flush(),
    };
    (done, flushed)
}

// Whether a run ended since nobody reads what it writes.
fn is_unheard(done: &Result<(), KeptFailure>, flushed: &io::Result<()>) -> bool {
    if let Err(e) = flushed {
        return is_unread(e);
    }
    match done {
        Err(KeptFailure::Run(Failure::Io(e))) => is_unread(e),
        _ => false,
    }
}

/// Waits until all that a run wrote is read, unless nobody does that.
pub fn drained<R: Wait>(
    outlet: &Outlet<'_, R>,
    done: &Result<(), KeptFailure>,
    flushed: io::Result<()>,
) -> io::Result<()> {
    if is_unheard(done, &flushed) {
        return flushed;
    }
    let written = outlet.close();
    match flushed {
        Ok(()) => written,
        Err(e) => Err(e),
    }
}

/// What a run came to whose journal was kept; a failed write to its file is said.
pub fn unless_unkept<R: Eprint>(
    rt: &R,
    done: Result<(), KeptFailure>,
    name: &str,
) -> Result<Result<(), Failure>, Stop> {
    match done {
        Ok(()) => Ok(Ok(())),
        Err(KeptFailure::Run(failure)) => Ok(Err(failure)),
        Err(KeptFailure::File(e)) => {
            let _ = eprintln!(rt; "ravenhost: {name}: {e}");
            Err(Stop::BadFile)
        }
    }
}
