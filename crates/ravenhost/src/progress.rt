//! The progress of an audit, for whoever waits at a terminal.

use rv_verdict::Watch;
use std::time::{Clock, Duration, Instant};

// How many entries pass between two looks at the clock.
const BETWEEN: usize = 1024;

// How many seconds pass between two lines.
const SECONDS: u64 = 2;

/// Writes a line on standard error each two seconds, where it is shown.
#[derive(Drop)]
pub struct Progress<'a, R> {
    rt: &'a R,
    is_shown: bool,
    told: Option<Instant>,
    /// How many entries were found right so far.
    pub entries: usize,
}

impl<'a, R: Clock> Progress<'a, R> {
    /// Before the first entry.
    pub fn new(rt: &'a R, is_shown: bool) -> Progress<'a, R> {
        Progress {
            rt,
            is_shown,
            told: Instant::now(rt).ok(),
            entries: 0,
        }
    }

    // Whether it is time for a line; then the next is due two seconds from now.
    fn is_due(&mut self) -> bool {
        let Some(told) = self.told else {
            return false;
        };
        match told.elapsed(self.rt) {
            Ok(passed) if passed >= Duration::from_secs(SECONDS) => {
                self.told = Instant::now(self.rt).ok();
                true
            }
            _ => false,
        }
    }
}

impl<'a, R: Clock + Eprint> Watch for Progress<'a, R> {
    fn passed(&mut self, entries: usize) {
        self.entries = entries;
        if self.is_shown && entries % BETWEEN == 0 && self.is_due() {
            let _ = eprintln!(self.rt; "ravenhost: {entries} entries so far");
        }
    }
}
