//! What the access list is asked by the entries of a journal, and what a list decides of it.
//!
//! The list in force is asked about the call of a caller and of a fired line, and where a queue is served about the call of its first
//! caller; for the subject of that call, and at the clock. Whoever reads a journal entry by entry keeps a `Holding`, which knows the
//! calls and the subjects.
#![tactic(auto)]

pub mod asking;
pub mod deciding;
pub mod holding;
pub mod tabled;
