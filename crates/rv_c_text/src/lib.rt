//! A buffer of a caller's in C, and how it is filled.
#![tactic(auto)]

mod laying;
mod text;

pub use laying::{lay, lay_values, tell};
pub use text::Text;
