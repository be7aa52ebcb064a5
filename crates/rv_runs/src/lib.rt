//! Runs of bodies and of tasks to their end, by a machine: over one table of all bodies, on a stack that an actor keeps from one
//! run to the next. What stands in parentheses, as (5.2), is a section of ISO/IEC 8652:2012; (own) marks what is this project's
//! choice.
#![tactic(auto)]

pub mod ready;
pub mod run;
pub mod spare;
pub mod tabled;
