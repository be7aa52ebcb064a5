//! No declarative region of a unit text declares a name twice, and nothing has two bodies (ISO/IEC 8652:2012, 8.3, 3.11.1).
//!
//! [`declared_twice`] and [`body_twice`] look at a text alone, whatever its names denote.
#![tactic(auto)]

mod bodies;
mod names;
mod noted;
mod protected;
mod region;
mod unit;

pub use bodies::body_twice;
pub use unit::declared_twice;
