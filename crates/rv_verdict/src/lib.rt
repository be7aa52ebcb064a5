//! The verdict on a journal that a script brings, or a file of its own: the sections say over which capacity and units it
//! is judged, and one line says what was found.
#![tactic(auto)]

mod explaining;
mod given;
mod judging;
mod said;
mod script;
mod texts;
mod with_ends;

pub use given::Given;
pub use judging::{Audited, audit, audit_file};
pub use rv_audit::observer::{Nobody, Watch};
pub use said::say;
pub use script::{audit_over, script_of};
pub use with_ends::{Explained, audit_explained, audit_file_explained};
