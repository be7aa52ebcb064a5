//! Why a fault of names, types, ranges or restrictions is one, by what names denote where they stand: the scope says that which judges the text.
#![tactic(auto)]

pub mod bodies;
pub mod elsewhere;
mod handlers;
pub mod judged;
mod library;
pub mod names;
mod ranges;
pub mod restrictions;
pub mod types;
pub mod unknown;
pub mod wrong;
