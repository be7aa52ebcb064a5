//! The clock of a host that follows a real one: which ticks are due, each asked once.
#![tactic(auto)]

mod duration;
mod pace;

pub use duration::lasting;
pub use pace::{MOST_PERIOD, MOST_TICKS, Pace};
