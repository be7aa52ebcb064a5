//! Checking a script: its sections are looked at one by one, and each that is well formed is told.
#![tactic(auto)]

mod carriage_returns;
mod check;
mod commands;
mod devices;
mod goes;
mod lines;
mod purpose;
pub mod reading;
mod script;
mod sections;
mod steps;
pub mod warnings;
