//! The bodies of a unit as one flat table: each expression, each statement and each list of them is a node, which names
//! its children by numbers. What runs on a stack of its own keeps such numbers where the tree would want references. What
//! stands in parentheses, as (5.2), is a section of ISO/IEC 8652:2012.
#![tactic(auto)]

pub mod body;
pub mod code;
mod expressions;
mod statements;
pub mod unit;
