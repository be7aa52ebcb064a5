//! What can never work.

/// What can never work. Units and objects have their numbers from 1, operations those within their object from 1, tasks
/// the actors that they are, and lines theirs, 0 .. 9.
#[derive(Clone, Copy, Drop, PartialEq)]
pub enum Never {
    /// Tasks of the unit call the operation of the object in their own bodies, and the list denies the unit that at each
    /// tick from now on.
    Denied(usize, usize, usize),
    /// The task calls operations of the object in its own body, and its base priority is above the object's ceiling (D.3).
    Above(usize, usize),
    /// The list denies `Interrupts` the line's handler at each tick from now on.
    LineDenied(u8),
    /// The line's priority is above the ceiling of its handler's object (C.3, D.3).
    LineAbove(u8),
}
