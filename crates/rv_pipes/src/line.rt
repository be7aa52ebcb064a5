//! A line.

ghost use Rattle.std.specs.Prelude.{◌≡◌, ◌≢◌, ◌++◌, ◌∷◌, [], All, IfOk};
ghost use Rattle.rv_pipes.specs.Lines.{IsLine};

use std::io;
use std::io::ErrorKind;

/// A line, with its line feed.
#[derive(Drop)]
pub(crate) struct Line {
    pub(crate) bytes: Vec<u8>,
    ghost is: { IsLine bytes.items },
}

/// Adds a byte.
pub(crate) fn add(bytes: &mut Vec<u8>, byte: u8) -> io::Result<()>
    ensures { IfOk result (λ x. bytes.new.items ≡ bytes.old.items ++ byte ∷ []) }
{
    match bytes.push(byte) {
        Ok(()) => Ok(()),
        Err(_) => Err(io::Error::from(ErrorKind::OutOfMemory)),
    }
}

impl Line {
    /// The line of words without a line feed.
    #[tactic(auto, using(crate::proofs::Read::line_of))]
    pub(crate) fn of_words(words: Vec<u8>) -> io::Result<Line>
        requires { All (λ x. x ≢ 10) words.items }
        ensures { IfOk result (λ line. line.bytes.items ≡ words.items ++ 10 ∷ []) }
    {
        let mut bytes = words;
        add(&mut bytes, b'\n')?;
        Ok(Line { bytes })
    }
}
