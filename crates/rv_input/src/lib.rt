//! Input that comes piece by piece, from a terminal or an open pipe: its lines are given as they
//! come, and no more is waited for than a line needs.
#![tactic(auto)]

mod before;
mod fault;
mod input;
mod lines;
mod whole;

pub use before::{Before, read_before};
pub use fault::InputFault;
pub use input::{Input, MOST_BYTES, Preamble};
pub use whole::{Looked, has_command, has_command_now, load_bytes};
