//! Whole numbers of protected objects and their calls: short lists that are copied, ranges, and the arithmetic of
//! Integer.
#![tactic(auto)]

pub mod arithmetic;
pub mod bounded;
pub mod range;

pub use arithmetic::Arith;
pub use bounded::{Args, Bounded, MOST_ARGS, MOST_SCALARS, Scalars};
pub use range::in_range;
