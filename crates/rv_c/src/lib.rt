//! What a caller in C asks without a handle: a script is played, or its journal is judged, and what the program would print goes into
//! the caller's buffer, as much of it as there is room for. The exports themselves stand in rv_c_export.
#![tactic(auto)]

mod audit;
mod into;
mod play;
mod saying;
mod telling;
#[cfg(test)]
mod tests;
mod told;

pub use into::{audit_into, play_into};
