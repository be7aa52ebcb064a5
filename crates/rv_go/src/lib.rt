//! What `go` asks for the actors of a script: the bodies of the loaded units, what their actors were answered, and the
//! request that an actor's text makes next.
#![tactic(auto)]

mod asking;
pub mod hearing;
pub mod listening;
pub mod places;
pub mod run;
pub mod running;
pub mod texts;
