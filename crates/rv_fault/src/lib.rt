//! What can be wrong with a script, why a run over it ends before its work is done, what its parts are and hold, and
//! what is written until then.
#![tactic(auto)]

mod devices;
mod failure;
mod fault;
mod part;
mod parts;
mod sections;
mod writing;

pub use devices::{FittingDevice, device_unit, fitting_device};
pub use failure::{Failure, refused};
pub use fault::{ScriptFault, What};
pub use part::Part;
pub use parts::Parts;
pub use sections::{list_of, settings_line, settings_of, shape_of, text_unit, unit_of};
pub use writing::put;
