//! What compiled bodies mean: what they do step by step, and what they ask an outside, the host that decides each step. The
//! definitions stand in `specs/`; here is the code of one step, which the machine of rv_machine takes one behind the other. What
//! stands in parentheses, as (5.2), is a section of ISO/IEC 8652:2012; (own) marks what is this project's choice.
#![tactic(auto)]

pub mod activation;
pub mod asks;
pub mod bodies;
pub mod choices;
pub mod end;
pub mod laws;
pub mod operators;
pub mod outcome;
pub mod outward;
pub mod ranges;
pub mod setting;
