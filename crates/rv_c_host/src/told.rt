//! An answer in numbers.

/// An answer in numbers: `rh_answer` of include/ravenhost.h.
#[repr(C)]
#[derive(Drop)]
pub struct Told {
    /// What it is: above 0 what the journal keeps, below 0 what changes nothing.
    pub kind: i32,
    /// The violated rule of a refusal, 1 .. 6; 1 where an end drops a queued caller; else 0.
    pub rule: i32,
    /// The line of the list that decided a refusal or a drop, from 1; 0 where none did.
    pub line: usize,
    /// The version of the list that a refusal names.
    pub version: usize,
    /// The queued caller that an end hands the object to or drops; 0 where there is none.
    pub actor: usize,
    /// How many components a body starts with.
    pub count: usize,
    /// What was accepted with a value: a clock's ticks, or a state.
    pub value: i64,
    /// The components that a body starts with; those behind stay as they were.
    pub scalars: [i64; 32],
}
