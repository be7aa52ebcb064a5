//! How the threads of these games wait for one another: never for ever.

use crossbeam_channel::{Receiver, TryRecvError};
use std::sync::Wait;
use std::thread;

/// How often a thread looks for what another one tells.
pub const LOOKS: u64 = 100_000_000;

/// What is told next. None where it doesn't come within so many looks, or never will.
pub fn receive<T: Drop, R: Wait>(rt: &R, receiver: &Receiver<T>) -> Option<T> {
    for _ in 0..LOOKS {
        match receiver.try_recv(rt) {
            Ok(told) => return Some(told),
            Err(TryRecvError::Disconnected) => return None,
            Err(_) => thread::yield_now(),
        }
    }
    None
}
