//! How long the end of a run waits for its threads.

ghost use Rattle.std.specs.Prelude.{◌≡◌, is_some};
ghost use Rattle.rv_staff.specs.Ending.{Waits};

use crate::task::Task;
use crossbeam_channel::{Receiver, Sender, TrySendError, bounded};
use rv_crew::crew::Crew;
use std::alloc::{AllocError, Global};
use std::sync::Wait;
use std::thread;
use std::time::{Clock, Duration};

// How long a beat of a timekeeper is, in milliseconds.
const BEAT: u64 = 10;

/// How long the end of a run waits for its threads: as long as a timekeeper tells it, in a thread of its own.
#[derive(Drop)]
pub struct Grace {
    // Where it is told that the waiting begins.
    begins: Sender<u8>,
    // What comes at each beat: whether there is time left.
    beats: Receiver<bool>,
}

/// The end at which a thread keeps the time.
#[derive(Drop)]
pub struct Timekeeper {
    begun: Receiver<u8>,
    beats: Sender<bool>,
    millis: u64,
}

/// The two ends of so many milliseconds of grace.
///
/// # Errors
/// Where memory is refused.
pub fn grace_ends(alloc: Global, millis: u64) -> Result<(Grace, Timekeeper), AllocError> {
    let (begins, begun) = bounded(alloc, 1)?;
    let (tells, beats) = bounded(alloc, 1)?;
    let grace = Grace { begins, beats };
    let keeper = Timekeeper {
        begun,
        beats: tells,
        millis,
    };
    Ok((grace, keeper))
}

impl Timekeeper {
    /// Waits until the waiting begins, tells each beat that time is left, and at last that none is. It ends where nobody hears it.
    pub fn keep<R: Wait + Clock>(self, rt: &R) {
        if self.begun.recv(rt).is_err() {
            return;
        }
        for _ in 0..self.millis / BEAT {
            thread::sleep(rt, Duration::from_millis(BEAT));
            // A beat that wasn't heard yet stands for this one too.
            if let Err(TrySendError::Disconnected(_)) = self.beats.try_send(rt, true) {
                return;
            }
        }
        thread::sleep(rt, Duration::from_millis(self.millis % BEAT));
        let _ = self.beats.send(rt, false);
    }
}

impl Grace {
    // Waits until the jobs of all threads have ended, or the time is up. Whether it is; where nobody keeps the time it never is.
    fn is_over<R: Wait>(&self, rt: &R, crew: &Crew<Task>) -> bool {
        if self.begins.try_send(rt, 1).is_err() {
            return false;
        }
        for _ in rt.forever() {
            if crew.has_ended() {
                return false;
            }
            match self.beats.recv(rt) {
                Ok(true) => {}
                Ok(false) => return true,
                Err(_) => return false,
            }
        }
        unreachable!()
    }
}

/// Waits for the threads of a crew as long as a grace lasts, and gives up those that didn't end by then; without a grace none.
/// Where memory for the names of their actors is refused none is given up.
pub(crate) fn wait<R: Wait>(rt: &R, crew: &mut Crew<Task>, grace: Option<&Grace>)
    ensures { Waits (is_some grace.entry) crew.old crew.new }
{
    if let Some(grace) = grace {
        if grace.is_over(rt, &*crew) {
            let _ = crew.abandon();
        }
    }
}
