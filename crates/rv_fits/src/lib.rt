//! Whether the calls of compiled bodies fit a catalogue: what is called as a function is one, and so on. What stands in
//! parentheses, as (9.5.1), is a section of ISO/IEC 8652:2012; (own) marks what is this project's choice.
#![tactic(auto)]

mod body;
mod callee;
mod expression;
pub mod laws;
mod passing;
mod statement;
mod units;
mod whole;

pub use units::{may_load, with_unit};
