//! Tells the ports of a turn that they may go on.

use rv_event::entry::Answer;
use std::sync::Wait;
use std::sync::atomic::{AtomicU64, Ordering};
use std::{hint, thread};

// How many looks come one right after another before a port lets other threads run.
const SPINS: u32 = 300;

// After how many looks a port sleeps.
const LOOKS: u32 = 400;

/// Rings for those who were answered Busy or Waiting, or Full where the journal lasts. No ring is lost: who goes to sleep says so
/// before the count is compared once more, and who rings adds to the count before it looks for
/// sleepers.
#[derive(Drop)]
pub(crate) struct Bell {
    rings: AtomicU64,
    sleepers: AtomicU64,
}

// Whether others may go on after the answer: a body has ended, or something was carried out. A start,
// a refusal, and the beginning and the end of the actor's own wait free nobody.
fn frees(answer: &Answer) -> bool {
    matches!(answer, Answer::Done(_) | Answer::Accepted(_))
}

impl Bell {
    pub(crate) fn new() -> Bell {
        Bell {
            rings: AtomicU64::new(0),
            sleepers: AtomicU64::new(0),
        }
    }

    /// How often it has rung. Who is to wait reads this before it asks.
    pub(crate) fn rings(&self) -> u64 {
        self.rings.load(Ordering::SeqCst)
    }

    /// Rings where others may go on after the answer.
    pub(crate) fn tell(&self, answer: &Answer) {
        if frees(answer) {
            self.ring();
        }
    }

    fn ring(&self) {
        self.rings.fetch_add(1, Ordering::SeqCst);
        if self.sleepers.load(Ordering::SeqCst) != 0 {
            self.rings.wake_all();
        }
    }

    /// Waits until it has rung since `seen` was read.
    pub(crate) fn wait_past<R: Wait>(&self, rt: &R, seen: u64) {
        let mut looks = 0u32;
        for _ in rt.forever() {
            if self.rings() != seen {
                break;
            }
            self.pause(rt, looks, seen);
            looks = looks.saturating_add(1);
        }
    }

    // Lets some time pass before the next look, and sleeps at most until the next ring. A sleeper's
    // count is compared by its low 32 bits alone, and by all just before: only 2^32 rings that come
    // between the two could be missed, and then the next ring wakes it.
    fn pause<R: Wait>(&self, rt: &R, looks: u32, seen: u64) {
        if looks < SPINS {
            hint::spin_loop();
        } else if looks < LOOKS {
            thread::yield_now();
        } else {
            self.sleepers.fetch_add(1, Ordering::SeqCst);
            if self.rings() == seen {
                self.rings.park(rt, (seen % (1 << 32)) as u32);
            }
            self.sleepers.fetch_sub(1, Ordering::SeqCst);
        }
    }
}
