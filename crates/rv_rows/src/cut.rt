//! Scripts that are cut short or damaged: each has to get a verdict, and to be looked at and played to its end.

use rv_check::reading::check;
use rv_fault::Failure;
use rv_play::play::play;
use std::alloc::{AllocError, Global};

// Bytes that take the place of others: those that open, close or end something, blanks, and one that is no text.
const OTHERS: [u8; 13] = [
    b'@', b'(', b')', b';', b':', b'\'', b' ', b'\n', b'-', b'_', b'9', 0, 200,
];

/// A share of the places of a script: each place of so many, from this one on. So several processes can share the work.
#[derive(Clone, Copy)]
pub struct Share {
    first: usize,
    of: usize,
}

impl Share {
    /// The share of this number, from 0, of so many. None where there is no such share.
    pub fn new(number: usize, of: usize) -> Option<Share> {
        if number < of {
            Some(Share { first: number, of })
        } else {
            None
        }
    }

    // Whether a place is of it.
    fn has(self, at: usize) -> bool {
        at.checked_rem(self.of) == Some(self.first)
    }
}

/// How many runs over scripts came to which end.
#[derive(Clone, Copy)]
pub struct Ends {
    /// The script was carried out, or is well formed.
    pub done: usize,
    /// It was refused.
    pub refused: usize,
    /// Memory, a read or a write failed.
    pub failed: usize,
}

impl Ends {
    /// No run so far.
    pub fn new() -> Ends {
        Ends {
            done: 0,
            refused: 0,
            failed: 0,
        }
    }

    // One more run.
    fn note(&mut self, outcome: Result<(), Failure>) {
        match outcome {
            Ok(()) => self.done = self.done.saturating_add(1),
            Err(Failure::Refused(_)) => self.refused = self.refused.saturating_add(1),
            Err(_) => self.failed = self.failed.saturating_add(1),
        }
    }

    // A script is checked, and played with all that isn't recorded.
    fn run(&mut self, alloc: Global, script: &[u8]) {
        let mut reader = script;
        let mut written: Vec<u8> = Vec::new(alloc);
        self.note(check(alloc, &mut reader, &mut written));
        let mut reader = script;
        let mut written: Vec<u8> = Vec::new(alloc);
        self.note(play(alloc, &mut reader, &mut written, true));
    }

    /// A script is run cut before each of its bytes that are of a share.
    pub fn run_cut(&mut self, alloc: Global, script: &[u8], share: Share) {
        for end in 0..script.len() {
            if share.has(end) {
                self.run(alloc, &script[..end]);
            }
        }
    }

    /// A script is run with each of its bytes that are of a share replaced in turn.
    pub fn run_damaged(
        &mut self,
        alloc: Global,
        script: &[u8],
        share: Share,
    ) -> Result<(), AllocError> {
        let mut damaged = script.to_vec(alloc)?;
        for (at, byte) in script.iter().enumerate() {
            if share.has(at) {
                if let Some(place) = damaged.get_mut(at) {
                    *place = other_byte(at, *byte);
                }
                self.run(alloc, damaged.as_slice());
                if let Some(place) = damaged.get_mut(at) {
                    *place = *byte;
                }
            }
        }
        Ok(())
    }
}

// A byte that stands in the place of this one. No digit takes another's place: `go 0000000000000000001` would be carried out
// for years.
fn other_byte(at: usize, byte: u8) -> u8 {
    let other = OTHERS[at % 13];
    if other == byte || (other.is_ascii_digit() && byte.is_ascii_digit()) {
        b'a'
    } else {
        other
    }
}
