//! The pipes of a task that belongs to another process. A job sits at one end; at the other a thread reads requests from one
//! pipe, and writes what they come to into the other. One request is under way at a time, so nothing gathers where a process asks
//! on without reading, and a job never waits for a process that reads or writes nothing.
#![tactic(auto)]

mod carrier;
mod line;
mod lines;
mod pair;
mod replies;
mod requests;

pub use carrier::{Carrier, CarryFault};
pub use lines::MOST_BYTES;
pub use pair::{Ender, Pipes, ends};
pub use replies::Replies;
pub use requests::Requests;
