//! What is said below the line of a fault where it is asked for: where in the script the fault stands, the line with a
//! caret under the word at fault, and what is wrong with it (`CAUSES.md` has the closed list).
#![tactic(auto)]

mod also;
mod attached;
mod bytes;
mod ceilings;
mod commands;
mod excerpt;
mod explanation;
mod finding;
mod grammar;
mod habits;
mod judge;
mod lexical;
mod line;
mod lists;
mod loaded;
mod members;
mod parts;
mod places;
mod sections;
mod settings;
mod shaped;
mod shapes;
pub mod spot;
mod steps;
mod taken;
mod units;
mod wanted;

pub use explanation::Explanation;
pub use finding::{explain, explain_command};
