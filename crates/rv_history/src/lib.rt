//! Histories of a host: what is read off them, which answer is due, which of them are legal, what
//! commands lead to, and the laws over them. The definitions stand in `specs/`, each with its
//! section of ISO/IEC 8652:2012 or `(own)`; nothing here keeps a state. A law is the contract of a
//! function of `laws` that does nothing.
#![tactic(auto)]

pub mod command;
pub mod laws;
pub mod limits;
