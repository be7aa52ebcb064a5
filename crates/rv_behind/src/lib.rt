//! The host behind a turn: what threads act on one at a time.
#![tactic(auto)]

pub mod behind;
pub mod event;
pub mod laws;
