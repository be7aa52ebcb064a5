//! What can never work, for whoever writes a plant: calls in a task's own text, and handlers of lines, that the access list
//! denies at each tick from now on, or whose object's ceiling is too low (D.3). What is told decides nothing itself.
#![tactic(auto)]

mod calls;
mod denied;
mod expressions;
mod firing;
mod judge;
mod load;
mod note;
mod statements;
mod telling;
mod words;

pub use calls::{Called, TaskCalls, UnitCalls, unit_calls};
pub use firing::{Firing, firing_of, firing_text};
pub use judge::{ceiling_notes, denial_notes};
pub use load::load_text;
pub use note::Never;
pub use telling::notes_text;
