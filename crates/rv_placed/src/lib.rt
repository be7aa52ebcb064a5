//! Where the texts of units have the bodies of the operations that an explanation names.
#![tactic(auto)]

pub mod places;
pub mod placing;
