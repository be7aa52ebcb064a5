//! How often something was counted, by words, and rows of that in the order in which the words came first.
#![tactic(auto)]

pub mod rows;
pub mod tallies;
pub mod words;
