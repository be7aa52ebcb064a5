//! Identifiers and names.

/// An identifier as it was written; its case says nothing (ISO/IEC 8652:2012, 2.3).
#[derive(Drop)]
pub struct Identifier {
    pub at: usize,
    pub text: String,
}

/// A name, simple or expanded: `A` or `A.B.C` (4.1, 4.1.3). Its place is that of its first identifier.
#[derive(Drop)]
pub struct Name {
    pub first: Identifier,
    pub more: Vec<Identifier>,
}
