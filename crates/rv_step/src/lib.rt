//! The steps of a script, `ACTOR REQUEST`, one a line: their words, and the names that they have, looked
//! up among the units that are loaded.
#![tactic(auto)]

mod ends;
pub mod lookup;
pub mod reading;
pub mod step;
