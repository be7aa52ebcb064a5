//! An object that an actor holds.

/// A protected object in whose protected action an actor is.
#[derive(Clone, Copy, PartialEq, Eq, Debug, Default)]
pub struct Held {
    /// The object's number, from 1.
    pub object: usize,
    /// The number, within the object and from 1, of the operation whose body the actor runs.
    pub operation: usize,
    /// The object's ceiling priority, 1 .. 40 (ISO/IEC 8652:2012, D.3).
    pub ceiling: usize,
}
