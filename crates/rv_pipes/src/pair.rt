//! The ends of the pipes of a task.

use crate::carrier::{Asked, Carrier};
use crate::replies::{Replies, STOPPED};
use crate::requests::Requests;
use crossbeam_channel::{Receiver, Sender, bounded};
use std::alloc::{AllocError, Global};
use std::sync::Wait;
use std::time::{Clock, Duration};

// How many messages wait at most: a request, the end of them as it was read, and as it was told from outside. So who ends the
// requests never waits, and takes no memory.
const MOST_REQUESTS: usize = 4;

// How many lines wait to be written at most: what the last request came to, and what is told behind it.
const MOST_REPLIES: usize = 2;

// How long a task's end waits until the process takes what it was told last, in milliseconds.
const LEAVE: u64 = 200;

/// The end at which a job sits.
#[derive(Drop)]
pub struct Pipes {
    pub(crate) alloc: Global,
    // The requests, up to their end.
    pub(crate) requests: Receiver<Asked>,
    // What they came to, each a line.
    pub(crate) replies: Sender<Vec<u8>>,
    // Has something once all that was told is written.
    pub(crate) written: Receiver<u8>,
}

/// What ends the requests of a job from outside, as where its run ends.
#[derive(Drop)]
pub struct Ender {
    requests: Sender<Asked>,
}

impl Pipes {
    /// Where the job reads requests.
    pub fn requests<'a, R: Wait>(&'a self, rt: &'a R) -> Requests<'a, R> {
        Requests::new(rt, self)
    }

    /// Where the job writes what they come to.
    pub fn replies<'a, R: Wait>(&'a self, rt: &'a R) -> Replies<'a, R> {
        Replies::new(rt, self)
    }

    // Whether a request waits that the job didn't take.
    fn has_request<R: Wait>(&self, rt: &R) -> bool {
        for _ in 0..MOST_REQUESTS {
            match self.requests.try_recv(rt) {
                Ok(Asked::Line(_)) => return true,
                Ok(Asked::Over) => {}
                Err(_) => return false,
            }
        }
        false
    }

    /// Behind the end of the job: a request that came meanwhile is told that the task has stopped, and what was told last is
    /// waited for until it is written, but not for long.
    pub fn leave<R: Wait + Clock>(&self, rt: &R) {
        if self.has_request(rt) {
            let _ = self.replies(rt).tell(STOPPED);
        }
        let _ = self.written.recv_timeout(rt, Duration::from_millis(LEAVE));
    }
}

impl Ender {
    /// Ends the requests behind the one that is under way.
    pub fn end<R: Wait>(&self, rt: &R) {
        let _ = self.requests.send(rt, Asked::Over);
    }
}

/// The ends of the pipes of one task: of its job, of the thread that reads and writes the pipes, and of whoever ends it.
///
/// # Errors
/// Where memory is refused.
pub fn ends<R: Wait>(rt: &R, alloc: Global) -> Result<(Pipes, Carrier, Ender), AllocError> {
    let (asks, requests) = bounded(alloc, MOST_REQUESTS)?;
    let (replies, told) = bounded(alloc, MOST_REPLIES)?;
    let (writes, written) = bounded(alloc, 1)?;
    // Nothing was told yet, so all of it is written.
    let _ = writes.try_send(rt, 1);
    let ender = Ender {
        requests: asks.clone()?,
    };
    let carrier = Carrier {
        alloc,
        requests: asks,
        replies: told,
        written: writes,
    };
    let pipes = Pipes {
        alloc,
        requests,
        replies,
        written,
    };
    Ok((pipes, carrier, ender))
}
