//! How often each line of the lists of a journal decided what the list was asked, and how often to grant.
#![tactic(auto)]

mod counts;
pub mod hits;
mod lines;
