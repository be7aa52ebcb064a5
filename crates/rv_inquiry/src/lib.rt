//! The command line of `ravenreview`: what its words ask.
#![tactic(auto)]

mod args;
mod command;
pub mod inquiry;
pub mod misuse;
pub mod read;
mod subcommands;
mod values;
