//! Why an entry of a journal was answered as it was, and what became of it.
//!
//! Whoever audits the journal lends an observer each entry with the audit's own host. The observer keeps what ties entries to one another,
//! writes down at the entry that is asked about what it was decided by, and at a later one that it ended what that entry began. What it
//! says is said of legal journals only.
#![tactic(auto)]

mod bodies;
pub mod drops;
pub mod explained;
mod letting;
mod reasons;
pub mod refusals;
pub mod ties;
mod turning;
mod turns;
pub mod words;
