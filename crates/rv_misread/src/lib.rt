//! Why a reader refuses a line of a list, a step, the settings or the shape of a script, or the front of a unit text: which word or line
//! it is, and what is wrong with that. A reason is told where the reader refuses; its sentence stands in rv_explain.
#![tactic(auto)]

mod lists;
mod settings;
mod shapes;
mod steps;
mod words;

pub use lists::{LineReason, line_reason};
pub use settings::{SettingsReason, bad_value, not_toml, unknown_key};
pub use shapes::{ShapeReason, shape_reason};
pub use steps::{StepReason, step_reason};
pub use words::{NameReason, NumberReason, name_reason, number_reason};
