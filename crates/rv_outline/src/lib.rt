//! The outline of a unit text (ISO/IEC 8652:2012, 3.2, 3.3, 6.1, 7.1, 9.1, 9.4): what its declarations mean, and the shape
//! of its unit.
//!
//! [`outline::outline_of`] walks through the declarations of a text whose names are bound, and keeps what is known of each in
//! a table of `rv_scope`. A declaration that doesn't fit is told and left out, and the walk goes on behind it.
#![tactic(auto)]

mod barrier;
mod body;
mod declaration;
mod draft;
mod handler;
pub mod outline;
mod pragma;
mod priority;
pub mod profile;
mod protected;
mod shape;
mod task;

pub use outline::{ObjectType, Outline, outline_of};
