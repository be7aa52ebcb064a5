//! Why a line of a journal is unreadable, for people: an audit's verdict names the line alone. And which sections of a script an
//! audit passes over.
#![tactic(auto)]

mod actors;
mod answers;
mod front;
mod journals;
mod line;
mod reason;
mod requests;
mod values;
mod why;

pub use front::{Front, front_of, is_unreadable};
pub use journals::{journals_in, journals_note};
pub use line::reason_of;
pub use reason::Reason;
pub use why::{why_in, why_unread};
