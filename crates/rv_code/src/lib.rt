//! The compiled bodies of a unit: names are resolved to slots and numbers, types are gone, and each check of a range
//! that ISO/IEC 8652:2012 asks for stands in the tree. What stands in parentheses, as (5.2), is one of its sections.
#![tactic(auto)]

pub mod body;
mod callee;
pub mod expression;
mod lists;
mod shape_alone;
pub mod statement;
mod unit;

pub use body::{Body, Declaration, ExceptionChoice, Handler, MOST_SLOTS, ObjectBodies, UnitBodies};
pub use callee::of_object;
pub use expression::{Callee, Expression, Link, Operator, Prefix};
pub use statement::{Alternative, Branch, Choice, Place, Statement, Target};
pub use unit::Unit;
