//! What is wrong where a text has no word.

ghost use Rattle.std.specs.Prelude.{◌≡◌};
ghost use Rattle.rv_lex.specs.Faults.{fault_at};

use std::alloc::AllocFailed;
use thiserror::Error;

/// Why no word can be cut at the front of a text.
#[derive(Clone, Copy, Debug, PartialEq, Eq)]
pub enum WordFault {
    /// An ASCII character that begins no word.
    BadCharacter,
    /// A digit that begins no literal whose value is at most 2147483647 (2.4).
    BadLiteral,
    /// A letter that begins no identifier of at most 64 characters (2.3).
    BadIdentifier,
    /// A character past ASCII outside of comments.
    NotAscii,
}

/// Why a text has no list of words: its first fault, at a byte offset counted from 0, or no memory.
#[derive(Clone, Copy, Debug, PartialEq, Eq, Error)]
pub enum LexFault {
    /// An ASCII character that begins no word.
    #[error("BadCharacter at {0}")]
    BadCharacter(usize),
    /// A digit that begins no literal (2.4).
    #[error("BadLiteral at {0}")]
    BadLiteral(usize),
    /// A letter that begins no identifier (2.3).
    #[error("BadIdentifier at {0}")]
    BadIdentifier(usize),
    /// A character past ASCII outside of comments.
    #[error("NotAscii at {0}")]
    NotAscii(usize),
    /// Memory was refused.
    #[error("NoMemory")]
    NoMemory,
}

impl WordFault {
    /// The fault at that place of the text.
    pub fn at(self, place: usize) -> LexFault
        ensures { result ≡ fault_at self place }
    {
        match self {
            WordFault::BadCharacter => LexFault::BadCharacter(place),
            WordFault::BadLiteral => LexFault::BadLiteral(place),
            WordFault::BadIdentifier => LexFault::BadIdentifier(place),
            WordFault::NotAscii => LexFault::NotAscii(place),
        }
    }
}

impl<T: Drop> From<AllocFailed<T>> for LexFault {
    ghost use Rattle.std.specs.Prelude.{◌≡◌};
    ghost use Rattle.rv_lex.specs.declared.fault.LexFault.TheVariants.{NoMemory};

    ghost from_gives = { λ _ e. e ≡ NoMemory };

    fn from(_error: AllocFailed<T>) -> LexFault {
        LexFault::NoMemory
    }
}
