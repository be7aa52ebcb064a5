//! The room that the operator of a run has left for list changes, whatever units do, where each unit has an allowance.
#![tactic(auto)]

mod books;
pub mod laws;

pub use books::Books;
