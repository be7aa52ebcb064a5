//! Whether recorded ends of bodies are what the bodies' texts mean. Each end's body is run again, by a machine and without
//! threads, on the entries between its start and its end. The caller carries the journal out on a host, and lends it to a
//! `Tally` before and behind each entry; behind the first end whose text means another a tally changes no more.
#![tactic(auto)]

pub mod afoot;
mod answered;
pub mod ends;
mod following;
pub mod meaning;
mod others;
pub mod tally;
mod texts;
