//! The operator's command lines, carried out on a host behind a turn.
#![tactic(auto)]

mod order;
mod shell;

pub use order::{Order, order_of};
pub use shell::{LineFault, Next, Shell, put, put_made};
