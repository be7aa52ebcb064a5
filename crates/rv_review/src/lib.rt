//! Questions after an incident, answered by an observer of a journal's audit.
//!
//! A review judges first. On a journal that isn't legal it says what an audit says, and nothing else; of a legal one it says nothing of
//! the verdict, only what was asked. Whatever it says it keeps in memory until the whole journal is found legal, since standard input
//! can't be read twice, and a file may change between two reads.
#![tactic(auto)]

mod changed;
mod decided;
mod drawn;
mod explained;
mod exported;
mod granted;
mod refused;
mod review;
mod reviewing;
mod stated;
mod waited;

pub use changed::{what_if, what_if_file};
pub use decided::{hits, hits_file};
pub use drawn::{timeline, timeline_file};
pub use explained::{explain, explain_file};
pub use exported::{export, export_file};
pub use granted::{rights, rights_file};
pub use refused::{refusals, refusals_file};
pub use rv_audit::observer::{Nobody, Watch};
pub use rv_picture::bar::Frame;
pub use rv_refused::{Filter, Since};
pub use rv_rights::wish::Wish as AccessWish;
pub use rv_timeline::timeline::{Form, Wish};
pub use rv_verdict::Audited;
pub use stated::{state, state_file};
pub use waited::{waits, waits_file};
