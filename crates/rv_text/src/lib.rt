//! What all texts of the host share: lines, words, names, numbers and sections.
//! Everything is cut without memory: each function gives the first part and what stands behind it.
#![tactic(auto)]

mod lines;
mod names;
mod numbers;
mod sections;
mod words;

pub use lines::{next_line, without_return};
pub use names::{MOST_CHARACTERS, dotted_parts, is_dotted_name, is_identifier, is_same_name};
pub use numbers::{MOST_DIGITS, integer_of, natural_of, natural_part};
pub use sections::{Section, Sections, open_script};
pub use words::{has_words, next_word};
