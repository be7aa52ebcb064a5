//! What lasts from one entry of a journal to another: waits (9.5.3, D.10), bodies (9.5.1) and delays (9.6).
#![tactic(auto)]

pub mod calls;
pub mod entries;
pub mod lines;
pub mod rows;
pub mod track;
