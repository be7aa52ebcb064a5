//! Why a unit text can't go on behind some of its words: what is open there, and which small change lets it go on furthest.
//! The parser judges each change, so what is told is one that the grammar takes.
#![tactic(auto)]

mod finding;
mod mending;
mod opened;
mod reason;
mod trial;

pub use finding::reason_of;
pub use reason::{Crossed, Mend, Opener, Reason};
