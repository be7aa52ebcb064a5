//! Names of a unit text, each bound to the one declaration that is visible (ISO/IEC 8652:2012, 8.2, 8.3, 8.6).
//!
//! [`resolve::resolve`] walks through a text once and makes `rv_scope`'s `Named`, or tells the fault at the least place.
#![tactic(auto)]

mod body;
mod completed;
mod completed_operations;
mod completion;
mod context_names;
mod declaration;
mod end_names;
mod expression;
pub mod fault;
mod firsts;
mod jumps;
mod missing;
mod nonconforming;
mod object;
mod operation_body;
mod pragma;
mod protected;
pub mod resolve;
mod statement;
mod twice;
mod unit;

pub use fault::NameFault;
