//! The task of an actor that belongs to another process: it asks by lines, one request each, and is told by lines what each
//! came to.
#![tactic(auto)]

mod asking;
mod outcome;
mod serving;
mod task;

pub use asking::perform_asked;
pub use outcome::Outcome;
pub use serving::{Desk, Goes, serve};
pub use task::actor_task;
