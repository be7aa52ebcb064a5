//! What is declared at a place of a unit text, and which of it a name there denotes (ISO/IEC 8652:2012, 8.1, 8.2, 8.3): what the faults of names
//! and types are told from, by the scope that judges the text.
#![tactic(auto)]

mod begun;
mod bodies;
mod declarations;
mod names;
mod operations;
mod ranges;
mod statements;
mod unit;

pub use names::{Stop, names_seen, nearest_seen, place_of, stop_of};
pub use ranges::range_of;
pub use unit::scope_at;
