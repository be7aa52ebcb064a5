//! What a call says.

/// All that a call says, whatever the caller has room for.
#[derive(Drop)]
pub struct Told {
    /// The status that the program would end with: 0 done, 1 a refused script or a journal that isn't legal, 3 want of memory.
    pub status: i32,
    /// The text, and behind it the line of the fault that a script is refused for.
    pub text: Vec<u8>,
    /// How many bytes stand before that line; where there is none, how many there are.
    pub fault: usize,
}
