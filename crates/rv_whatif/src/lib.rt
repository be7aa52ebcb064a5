//! What another list would have decided otherwise than the lists of a journal did.
#![tactic(auto)]

mod lines;
pub mod whatif;
