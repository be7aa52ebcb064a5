//! The restrictions of the Ravenscar profile (ISO/IEC 8652:2012, D.13), looked for in a unit's tree.
//!
//! [`declared`] tells what a package and its protected units declare by a name, before any name is bound.
#![tactic(auto)]

mod barrier;
mod declaration;
pub mod declared;
mod dependence;
mod expression;
mod first;
mod mark;
mod statement;
mod unit;
pub mod violation;

pub use unit::first_violation;
pub use violation::{Restriction, Violation};
