//! The caller's text.

/// A text of the caller's: `rh_text` of include/ravenhost.h. In C its buffer is a pointer, and then the capacity in bytes.
#[repr(C)]
#[derive(Drop)]
pub struct Text<'a> {
    /// Gets the first bytes of all that is told, as many as there is room for; what is behind them stays.
    pub bytes: &'a mut [u8],
    /// How many bytes all that is told has, whatever the capacity is.
    pub length: usize,
    /// How many of them stand before the line of the fault that a script is refused for: all of them where there is none.
    pub fault: usize,
}
