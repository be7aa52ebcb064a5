//! A host, and the texts of its actors, kept together: units are loaded with their bodies, and an actor's text makes one request at a
//! time, as `go` of a script does.
#![tactic(auto)]

mod going;
mod kept;
mod loading;

pub use kept::Kept;
