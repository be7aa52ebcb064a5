//! Unit texts become units: a text is read, judged by the profile's restrictions, by what its names denote and by its
//! types, and gives the shape of its unit. What is wrong is told as the first of these finds it.
#![tactic(auto)]

mod compiling;
mod fault;

/// The stack of a thread that reads texts of units, in bytes: of the program's own, and of a C caller's. Parsing a text, giving it
/// its types, and letting go of its tree recurse by its nesting, which is limited; bodies run on a stack of their own.
/// `bench/deepest_stack.py` shows what the deepest texts touch, and fails where twice that is more.
pub const STACK_BYTES: usize = 4 * 1024 * 1024;

pub use compiling::compile;
pub use fault::UnitFault;
pub use rv_code::Unit;
