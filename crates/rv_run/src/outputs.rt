//! What a run writes, and why it ends.

use rv_fault::Failure;
use std::io;

/// What is written to the operator, and what is told beside that.
#[derive(Drop)]
pub struct Outputs<W, E> {
    /// Where the answers are written.
    pub writer: W,
    /// Where the rest is told: standard error.
    pub errors: E,
}

/// Why a run that may keep its journal in a file ends before its work is done.
#[derive(Drop)]
pub enum KeptFailure {
    /// As a run without a file.
    Run(Failure),
    /// A write to the file, or its sync, failed.
    File(io::Error),
}
