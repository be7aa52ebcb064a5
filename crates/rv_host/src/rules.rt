//! The rules, each with what it asks of a history.

pub mod blocking;
pub mod ceiling;
pub mod clock;
pub mod exclusion;
pub mod fitting;
pub mod grant;
pub mod queue;
pub mod suspension;
pub mod values;
