//! Loading unit texts, with their bodies, into the host behind a handle of a caller's in C.
#![tactic(auto)]

mod loading;

pub use loading::load_unit;
