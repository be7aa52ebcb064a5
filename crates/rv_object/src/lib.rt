//! A protected object: its data, and the protected actions under way on it (ISO/IEC 8652:2012, 9.4 and 9.5.1).
#![tactic(auto)]

pub mod action;
pub mod object;

pub use action::{Action, State};
pub use object::Object;
