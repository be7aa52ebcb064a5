//! Access lists: the last matching line decides.
#![tactic(auto)]

mod change;
mod changes;
mod decision;
mod fault;
pub mod laws;
mod line;
mod list;
mod reading;
mod window;

pub use change::Change;
pub use decision::{decide, fits, fits_object};
pub use fault::ListFault;
pub use line::Line;
pub use list::AccessList;
pub use reading::{MOST_LINES, read_line, read_list};
pub use window::{MOST_TICK, Window};
