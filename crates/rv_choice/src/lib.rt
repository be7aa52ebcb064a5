//! The command line of the program: what its words choose.
#![tactic(auto)]

pub mod actors;
mod args;
pub mod chosen;
mod command;
pub mod files;
pub mod misuse;
mod run_words;
mod running;
pub mod selection;
mod subcommands;
mod words;
