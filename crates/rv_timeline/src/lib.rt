//! What a timeline shows of a journal: who waited, held and was delayed from which entry to which, and who was refused.
#![tactic(auto)]

mod bars;
mod refused;
pub mod timeline;
