//! Gates between a body and its end.

/// What a body passes through before its end is asked. It is lent to a call, for tests that hold a
/// body open; it decides nothing.
pub trait Gate<R> {
    /// Comes back when the body may end.
    fn pass(&self, rt: &R);
}

/// The gate of every other call: always open.
#[derive(Clone, Copy, Drop)]
pub struct Open;

impl<R> Gate<R> for Open {
    fn pass(&self, _rt: &R) {}
}
