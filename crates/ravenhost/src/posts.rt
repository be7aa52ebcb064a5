//! The tasks that belong to other processes: a thread for each reads and writes the pipes by which its process asks and is told.

use crate::errands::{Aides, Errand, begun};
use crate::status::Stop;
use rv_choice::actors::ActorWords;
use rv_fault::Failure;
use rv_pipes::{Carrier, CarryFault};
use rv_shown::Shown;
use rv_staff::Outsider;
use std::alloc::{AllocError, Global};
use std::fs::OpenOptions;
use std::io::BufReader;
use std::rt::Files;
use std::sync::Wait;
use std::{fs, io};

/// What a thread reads and writes for a task.
#[derive(Drop)]
pub struct Post {
    alloc: Global,
    carrier: Carrier,
    // The names of the pipes, whence requests come, and where it goes what they came to.
    requests: String,
    replies: String,
}

// Says what stands against a pipe.
fn say<R: Eprint>(rt: &R, name: &str, error: &io::Error) {
    let name = Shown { text: name };
    let _ = eprintln!(rt; "ravenhost: {name}: {error}");
}

// Opens the pipe that is written. It is opened for reading too, so that this waits for no process, and who opens the pipes may do
// so in any order.
fn open_replies<R: Files>(rt: &R, name: &str) -> io::Result<R::File> {
    OpenOptions::new().read(true).write(true).open(rt, name)
}

// Opens the pipe that is read, once a process has opened it for writing.
fn open_requests<R: Files>(
    rt: &R,
    alloc: Global,
    name: &str,
) -> io::Result<BufReader<R::File, Global>> {
    BufReader::new(alloc, fs::open(rt, name)?)
}

/// Carries requests and what they come to, up to the end of either; what stands against a pipe is said, and ends the requests.
pub fn carry<R: Wait + Files + Eprint>(rt: &R, post: Post) {
    let Post {
        alloc,
        carrier,
        requests,
        replies,
    } = post;
    let mut writer = match open_replies(rt, replies.as_str()) {
        Ok(writer) => writer,
        Err(e) => {
            say(rt, replies.as_str(), &e);
            return carrier.end(rt);
        }
    };
    let reader = match open_requests(rt, alloc, requests.as_str()) {
        Ok(reader) => reader,
        Err(e) => {
            say(rt, requests.as_str(), &e);
            return carrier.end(rt);
        }
    };
    match carrier.carry(rt, reader, &mut writer) {
        Ok(()) => {}
        Err(CarryFault::Read(e)) => say(rt, requests.as_str(), &e),
        Err(CarryFault::Write(e)) => say(rt, replies.as_str(), &e),
    }
}

// Stops where a pipe isn't there, or is a plain file or a folder, which is said.
fn unless_no_pipe<R: Files + Eprint>(rt: &R, name: &str) -> Result<(), Stop> {
    match fs::metadata(rt, name) {
        Ok(known) if known.is_file() || known.is_dir() => {
            let name = Shown { text: name };
            let _ = eprintln!(rt; "ravenhost: {name} isn't a pipe");
            Err(Stop::BadFile)
        }
        Ok(_) => Ok(()),
        Err(e) => {
            say(rt, name, &e);
            Err(Stop::BadFile)
        }
    }
}

// Both ends of the pipes of a task: what a thread is to do, and what the run has.
fn parted<R: Wait>(
    rt: &R,
    alloc: Global,
    actor: &ActorWords<'_>,
) -> Result<(Post, Outsider), AllocError> {
    let (pipes, carrier, ender) = rv_pipes::ends(rt, alloc)?;
    let post = Post {
        alloc,
        carrier,
        requests: String::from_str(alloc, actor.requests)?,
        replies: String::from_str(alloc, actor.replies)?,
    };
    let outsider = Outsider {
        task: String::from_str(alloc, actor.task)?,
        pipes,
        ender,
    };
    Ok((post, outsider))
}

// Starts the thread of a task, and keeps what the run has of it.
fn post_one<R: Wait + Eprint>(
    rt: &R,
    alloc: Global,
    aides: &Aides,
    actor: &ActorWords<'_>,
    outsiders: &mut Vec<Outsider>,
) -> Result<(), Stop> {
    let Ok((post, outsider)) = parted(rt, alloc, actor) else {
        return Err(Stop::Failed(Failure::Memory));
    };
    if outsiders.push(outsider).is_err() {
        return Err(Stop::Failed(Failure::Memory));
    }
    begun(rt, aides, Errand::Post(post))
}

/// The tasks that belong to other processes, whose pipes threads read and write. Where a pipe isn't one, that is said, and none is
/// read.
pub fn outsiders_of<R: Wait + Files + Eprint>(
    rt: &R,
    alloc: Global,
    aides: &Aides,
    actors: &[ActorWords<'_>],
) -> Result<Vec<Outsider>, Stop> {
    for actor in actors {
        unless_no_pipe(rt, actor.requests)?;
        unless_no_pipe(rt, actor.replies)?;
    }
    let mut outsiders = Vec::new(alloc);
    for actor in actors {
        post_one(rt, alloc, aides, actor, &mut outsiders)?;
    }
    Ok(outsiders)
}
