//! The host: it carries out commands one after another, and each of its answers is a function of its
//! journal, as rv_history defines it. `host` is what is used: it keeps what is so after its entries in
//! fields (rv_present, rv_waiting), which `seen` holds for `rules`, what the rules ask; `facts` has what an
//! answer depends on and what is decided by it; `due` puts them together, `answering` asks the room. By
//! `forgetting` lists go that no page asks for.
#![tactic(auto)]

mod allowance;
mod answering;
pub mod answers;
mod decision;
mod due;
mod facts;
mod forgetting;
pub mod host;
pub mod pages;
mod rules;
mod seen;
