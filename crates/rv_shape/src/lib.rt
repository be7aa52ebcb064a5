//! Shapes of units, their text, and the catalogue that numbers what is loaded. What stands in parentheses, as
//! (9.5.1), is a section of ISO/IEC 8652:2012.
#![tactic(auto)]

pub mod actor;
pub mod catalogue;
mod draft;
pub mod fault;
mod fits;
mod forms;
mod item;
pub mod kind;
pub mod laws;
pub mod name;
mod numbering;
pub mod object;
mod object_draft;
pub mod reading;
pub mod shape;
mod shape_line;
pub mod suspension;
pub mod task;
