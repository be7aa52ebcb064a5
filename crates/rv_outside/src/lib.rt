//! What runs outside the turn: the body of an operation, from its start to the request for its end, and the text of a task. The
//! host never runs a body; whoever asks it does, with these.
#![tactic(auto)]

mod body;
mod text;

pub use body::{put_end, run_body};
pub use text::run_text;
