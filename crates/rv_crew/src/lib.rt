//! Boxed jobs, each on a port in a thread of its own, and the crew that starts and joins them.
#![tactic(auto)]

mod abandoning;
pub mod crew;
pub mod hiring;
pub mod job;
mod kept;
pub mod laws;
pub mod notice;
mod running;
pub mod tasks;
