//! The waits of a journal: who waited for what and for how long, and how long actors held objects and came late out of delays.
#![tactic(auto)]

pub mod taking;
mod told;
pub mod waits;
