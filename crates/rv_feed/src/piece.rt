//! What comes of an input, piece by piece.

use rv_input::InputFault;

/// What comes of an input.
#[derive(Drop)]
pub enum Piece {
    /// Its next bytes.
    Bytes(Vec<u8>),
    /// A read failed, or memory for its bytes was refused.
    Failed(InputFault),
    /// It is over: nothing comes behind this.
    End,
}
