//! What whoever looks at a host is shown of its history: the clock, the room, the list in force, what each task is at, and
//! who waits where.
#![tactic(auto)]

mod view;

pub use view::{Queue, View};
