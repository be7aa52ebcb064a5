//! Why an input gave no line.

use std::io;

/// Why an input gave no line.
#[derive(Drop)]
pub enum InputFault {
    /// Memory was refused.
    Memory,
    /// A read failed.
    Io(io::Error),
}
