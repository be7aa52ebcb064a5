//! Why a text is not read.

ghost use Rattle.std.specs.Prelude.{◌≡◌};
ghost use Rattle.rv_grammar.specs.declared.fault.ParseFault.TheVariants.{NoMemory};

use rv_lex::fault::LexFault;
use std::alloc::{AllocError, AllocFailed};
use thiserror::Error;

/// Why a text has no tree, or isn't read. A place is the byte offset of a token's first byte, or the text's length.
#[derive(Clone, Copy, Debug, PartialEq, Eq, Drop, Error)]
pub enum ParseFault {
    /// The words of the text have a fault.
    #[error("{0}")]
    Lex(LexFault),
    /// The first token after which no text of the grammar can go on.
    #[error("Unexpected at {0}")]
    Unexpected(usize),
    /// The 65th statement or parenthesis that is open.
    #[error("TooDeep at {0}")]
    TooDeep(usize),
    /// Memory was refused.
    #[error("NoMemory")]
    NoMemory,
}

impl From<AllocError> for ParseFault {
    ghost from_gives = { λ _ e. e ≡ NoMemory };

    fn from(_error: AllocError) -> ParseFault {
        ParseFault::NoMemory
    }
}

impl<T: Drop> From<AllocFailed<T>> for ParseFault {
    ghost from_gives = { λ _ e. e ≡ NoMemory };

    fn from(_error: AllocFailed<T>) -> ParseFault {
        ParseFault::NoMemory
    }
}
