//! The lines of the journal of the host behind a handle, for a caller in C.
#![tactic(auto)]

mod lines;

pub use lines::journal;
