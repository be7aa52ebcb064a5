//! Cuts a unit text into its words: identifiers, reserved words, literals and delimiters.
#![tactic(auto)]

pub mod fault;
mod front;
pub mod kind;
pub mod lexer;
mod literal;
pub mod token;
