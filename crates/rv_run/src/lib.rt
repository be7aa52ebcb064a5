//! A run: the sections of a script are carried out behind a turn, each actor gets a thread, and the commands of the
//! operator are served until the run ends. What else is done between two commands, its caller says (`Chores`).
#![tactic(auto)]

pub mod chores;
pub mod command;
mod devices;
mod journal;
pub mod leaving;
mod loads;
mod opening;
pub mod outputs;
pub mod run;
pub mod serving;
