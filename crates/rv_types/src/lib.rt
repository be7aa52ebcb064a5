//! Types of expressions and statements, and the compiled bodies of a unit text (ISO/IEC 8652:2012, 4, 5, 6, 9, 11).
//!
//! [`check_types`] takes a text whose names are bound, tells the fault of its types at the least place, or gives the shape
//! of its unit with the compiled bodies. A [`point::Point`] is a point of a body: the scope says which declaration is
//! visible, the outline what is known of those of the package, and its own list what is known of those of the body.
#![tactic(auto)]

mod block;
mod body;
mod bounds;
pub mod check;
mod choice;
mod coverage;
mod covers;
pub mod denoted;
mod expression;
mod locals;
mod names;
mod operators;
pub mod point;
mod protected;
mod refused;
mod selector;
pub mod setting;
mod statement;
mod static_form;
mod target;
mod text_order;
pub mod typed;
mod unit;

pub use check::check_types;
pub use rv_static::{Faults, TypeFault};
