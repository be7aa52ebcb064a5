//! The threads that read and write beside a run.

ghost use Rattle.std.specs.Prelude.{◌≡◌, [], IfOk};
ghost use Rattle.rv_feed.specs.Hearing.{heard};

use crate::posts::{Post, carry};
use crate::status::Stop;
use rv_fault::Failure;
use rv_feed::{Feed, Speaker};
use rv_outlet::{Drain, Outlet};
use rv_staff::{Grace, Timekeeper, grace_ends};
use std::alloc::Global;
use std::rt::Files;
use std::sync::Wait;
use std::time::Clock;
use std::{fs, io};

/// What a thread does beside a run.
#[derive(Drop)]
pub enum Errand {
    /// Reads standard input to its end.
    Input(Speaker),
    /// Waits until the pipe of this name has a byte or ends.
    Pipe(Speaker, String),
    /// Writes what is to be written to standard output.
    Output(Drain),
    /// Reads and writes the pipes of a task that belongs to another process.
    Post(Post),
    /// Keeps the time for which the end of the run waits for threads.
    Time(Timekeeper),
}

// Waits for a pipe. What stands against it is said, and is as its end.
fn wait_for<R: Wait + Files + Eprint>(rt: &R, mut speaker: Speaker, name: &str) {
    match fs::open(rt, name) {
        Ok(mut pipe) => speaker.read_once(rt, &mut pipe),
        Err(e) => {
            let _ = eprintln!(rt; "ravenhost: {name}: {e}");
            speaker.tell_end(rt);
        }
    }
}

/// Does what is done beside a run.
pub fn run_errand<R: Wait + Clock + Files + Input + Print + Eprint>(rt: &R, errand: Errand) {
    match errand {
        Errand::Input(mut speaker) => speaker.read_all(rt, &mut rt.reader()),
        Errand::Pipe(speaker, name) => wait_for(rt, speaker, name.as_str()),
        Errand::Output(mut drain) => {
            // The run is told of a failure, by its end of the output.
            let _ = drain.write_all(rt, &mut io::writer(rt));
        }
        Errand::Post(post) => carry(rt, post),
        Errand::Time(keeper) => keeper.keep(rt),
    }
}

/// Starts the threads of errands, by a closure of `main`, where the runtime is.
#[derive(Drop)]
pub struct Aides {
    /// The closure, which says whether a thread was started.
    pub begin: Box<dyn Fn(Errand) -> bool + Send>,
    pub ghost callable: { (errand : _) → pre begin errand },
}

/// Starts the thread of an errand.
pub fn begun<R: Eprint>(rt: &R, aides: &Aides, errand: Errand) -> Result<(), Stop> {
    if (aides.begin)(errand) {
        return Ok(());
    }
    let _ = eprintln!(rt; "ravenhost: no thread can be started");
    Err(Stop::NoThread)
}

/// The input of a run, which a thread reads.
pub fn input_of<R: Eprint>(rt: &R, alloc: Global, aides: &Aides) -> Result<Feed, Stop>
    ensures { IfOk result (λ feed. heard feed ≡ []) }
{
    let Ok((speaker, feed)) = rv_feed::ends(alloc) else {
        return Err(Stop::Failed(Failure::Memory));
    };
    begun(rt, aides, Errand::Input(speaker))?;
    Ok(feed)
}

/// The input of a run that reads none: it is over.
pub fn no_input<R: Wait>(rt: &R, alloc: Global) -> Result<Feed, Stop>
    ensures { IfOk result (λ feed. heard feed ≡ []) }
{
    let Ok((mut speaker, feed)) = rv_feed::ends(alloc) else {
        return Err(Stop::Failed(Failure::Memory));
    };
    speaker.tell_end(rt);
    Ok(feed)
}

/// The pipe whose end ends a run, where one is named: what stands against it is said.
pub fn stop_of<R: Files + Eprint>(
    rt: &R,
    alloc: Global,
    aides: &Aides,
    name: Option<&str>,
) -> Result<Option<Feed>, Stop> {
    let Some(name) = name else {
        return Ok(None);
    };
    if let Err(e) = fs::metadata(rt, name) {
        let _ = eprintln!(rt; "ravenhost: {name}: {e}");
        return Err(Stop::BadFile);
    }
    let Ok(owned) = String::from_str(alloc, name) else {
        return Err(Stop::Failed(Failure::Memory));
    };
    let Ok((speaker, feed)) = rv_feed::ends(alloc) else {
        return Err(Stop::Failed(Failure::Memory));
    };
    begun(rt, aides, Errand::Pipe(speaker, owned))?;
    Ok(Some(feed))
}

/// How long the end of a run waits for threads, where that is asked: a thread keeps the time.
pub fn grace_of<R: Eprint>(
    rt: &R,
    alloc: Global,
    aides: &Aides,
    millis: Option<u32>,
) -> Result<Option<Grace>, Stop> {
    let Some(millis) = millis else {
        return Ok(None);
    };
    let Ok((grace, keeper)) = grace_ends(alloc, millis as u64) else {
        return Err(Stop::Failed(Failure::Memory));
    };
    begun(rt, aides, Errand::Time(keeper))?;
    Ok(Some(grace))
}

/// The output of a run, which a thread writes.
pub fn outlet_of<'a, R: Eprint>(
    rt: &'a R,
    alloc: Global,
    aides: &Aides,
) -> Result<Outlet<'a, R>, Stop> {
    let Ok((outlet, drain)) = rv_outlet::ends(rt, alloc) else {
        return Err(Stop::Failed(Failure::Memory));
    };
    begun(rt, aides, Errand::Output(drain))?;
    Ok(outlet)
}
