//! Further faults of names in a unit text, behind its first one: the compiler is asked again, with something right in the place of each
//! fault that it told. A fault that may stand there only because of that isn't told.
#![tactic(auto)]

mod changed;
mod faults;
mod masks;
mod regions;
mod replacing;
mod search;

pub use faults::place_of;
pub use search::{MOST_FURTHER, further};
