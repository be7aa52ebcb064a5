//! Steps of a script that never fit: whatever came before them, over the units that are loaded and a list of so many lines, the
//! answer is `misuse` or `badline`, and nothing is recorded. Why it is so is told to whoever writes the script; what is told decides
//! nothing.
#![tactic(auto)]

mod call;
mod change;
mod judge;
pub mod laws;
mod misfit;
mod request;
mod text;

pub use judge::misfit_of;
pub use misfit::{Called, Misfit};
pub use request::{MOST_TICKS, is_tick};
pub use text::misfit_text;
