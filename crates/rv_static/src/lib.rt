//! Static expressions (ISO/IEC 8652:2012, 4.9): their types and their values, whatever their names mean.
#![tactic(auto)]

mod arithmetic;
pub mod fault;
pub mod meaning;
mod primary;
pub mod range;
mod value;

pub use arithmetic::{added, multiplied};
pub use fault::{Faults, TypeFault};
pub use meaning::{Meaning, Meanings, Number, Static};
pub use primary::{is_discrete, same_type};
pub use range::{default_start, narrowed, start, static_number, subtype, value_in};
pub use value::static_value;
