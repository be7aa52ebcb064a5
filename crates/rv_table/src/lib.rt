//! An access list compiled over the units that are loaded: which line decides a call is looked up, and not searched for.
#![tactic(auto)]

mod edit;
mod edit_row;
mod row;
mod rows;
mod spans;
mod table;

pub use edit::Edit;
pub use table::Table;
