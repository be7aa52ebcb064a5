//! A host behind a turn, and ports of it.
#![tactic(auto)]

mod asker;
mod bell;
mod body;
pub mod budget;
pub mod control;
pub mod ended;
pub mod fault;
pub mod gate;
pub mod laws;
pub mod note;
mod own_pass;
mod performance;
pub mod port;
pub mod reached;
mod stacks;
mod text;

pub use rv_behind::{behind, event};
