//! What waits, kept in fields as the entries come: the queues of the objects (9.5.3), the
//! suspension objects (D.10), and at which version of the list each actor was last spoken of, so
//! that a dropped caller is told of its drop. Each field stands for what the definitions read off
//! the history so far; nothing here looks back over it, and only `Waiting::new` takes memory.
//!
//! Until when an actor is delayed (9.6), on which object it is suspended and by which line it was
//! dropped, its stance says.
#![tactic(auto)]

mod queues;
mod suspensions;
mod versions;
pub mod waiting;
