//! An operation of an object.

/// An operation of an object, by their numbers: `rh_target` of include/ravenhost.h.
#[repr(C)]
#[derive(Clone, Copy, Drop)]
pub struct Target {
    /// The number of the object.
    pub object: usize,
    /// The number of the operation within the object.
    pub operation: usize,
}
