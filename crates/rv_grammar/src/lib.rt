//! The words of unit texts are read into trees, by recursive descent.
#![tactic(auto)]

mod body;
mod closing;
mod cursor;
mod declaration;
mod expression;
mod fault;
mod held;
mod name;
mod operation;
mod operator;
mod part;
mod phrase;
mod simple;
mod statement;
mod unit;
mod unit_declaration;

pub use fault::ParseFault;
pub use unit::read_words;
