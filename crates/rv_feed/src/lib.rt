//! An input that a thread of its own reads, so that whoever waits for it can do something else meanwhile. Each byte that is read is
//! handed on once, and taken once, in order.
#![tactic(auto)]

mod feed;
mod listening;
mod pair;
mod piece;
mod rule;
mod sections;
mod speaker;

pub use feed::Came;
pub use listening::Listening;
pub use pair::{Feed, Speaker, ends};
