//! Scripts: a script is read whole, cut into sections, each of which opens something, and what comes
//! of it is written whole. Each subcommand of the program opens scripts in this one way, and serves
//! some of the openings.
#![tactic(auto)]

mod opening;
mod read;
pub mod unit_text;
mod write;

pub use opening::{Opened, Opening, open, opening_of};
pub use read::{MOST_BYTES, ReadError, TextError, read_script, text_of};
pub use write::write_whole;
