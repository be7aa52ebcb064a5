//! What an actor holds, and the priority that it inherits (ISO/IEC 8652:2012, D.1 and D.3).
#![tactic(auto)]

pub mod held;
pub mod stack;

pub use held::Held;
pub use stack::{MOST_HELD, Stack};
