//! Who may call what, by the list in force behind a journal, over the units that it loaded.
#![tactic(auto)]

mod listing;
pub mod rights;
pub mod wish;
