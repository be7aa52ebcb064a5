//! Playing a script: each of its acts comes to a deed, the host answers it, and the journal of what was
//! answered is written.
#![tactic(auto)]

mod acts;
pub mod counts;
mod deed;
mod laws;
pub mod play;
mod player;
