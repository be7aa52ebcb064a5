//! An output that a thread of its own writes, so that whoever writes to it never waits for a reader. Each byte that is put there is
//! taken once, in order, and written.
#![tactic(auto)]

mod drain;
mod outlet;
mod pair;
mod rule;
mod told;

pub use pair::{Drain, Outlet, ends};
pub use told::{MOST_BYTES, is_unread};
