//! When the entries of a journal were written, by a file of times, and what is told of a journal with these times beside its entries.
//!
//! A line of the file is `ENTRY UTC`: the entries up to ENTRY were written by UTC, an instant as RFC 3339 has it. Nothing is judged by
//! times: what a journal is about has ticks alone.
#![tactic(auto)]

pub mod fault;
pub mod reading;
pub mod telling;
pub mod times;
