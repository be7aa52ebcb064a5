//! The bodies of operations conform to the declarations of their protected units (ISO/IEC 8652:2012, 6.3.1, 9.4, 9.5.2).
//!
//! [`profile_mismatch`] walks through the declarations of a text over the loaded units, and keeps what each mark of a
//! profile denotes where it stands.
#![tactic(auto)]

mod bodies;
mod conforms;
mod declared;
mod mark;
mod operation;
mod package;

pub use bodies::profile_mismatch;
