//! Notes on access lists, for whoever writes one: names that name nothing of what is loaded, and lines that decide
//! nothing, since later lines cover them or their window has ended. What is told decides nothing itself.
#![tactic(auto)]

mod change;
mod covered;
mod judge;
mod names;
mod note;
mod scene;
mod spans;
mod telling;
mod words;

pub use change::{change_notes, change_text, changed, denies, line_changed, new_ones};
pub use judge::notes;
pub use note::Note;
pub use scene::Scene;
pub use words::words_of;
