//! The one cause of a fault of a script, as a sentence: the words of a text, what is around them, what its units declare, and what is said of them
//! by tables.
#![tactic(auto)]

pub mod around;
pub mod cases;
pub mod cause;
pub mod declared;
pub mod forms;
pub mod grammar;
pub mod known;
pub mod nulls;
pub mod words;
