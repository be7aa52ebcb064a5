//! Reasons. A place is the byte offset of a word's first byte.

use rv_lex::kind::Kind;

/// The word that opened what ends with `end`: a package, a protected unit, a task, an operation's body or a statement.
#[derive(Clone, Copy)]
pub struct Opener {
    pub word: Kind,
    pub at: usize,
    /// Where its name stands, if it has one.
    pub name: Option<usize>,
}

/// An end with the name of a construct further out than the one that it ends.
#[derive(Clone, Copy)]
pub struct Crossed {
    /// What it ends.
    pub opener: Opener,
    /// Where its name stands.
    pub at: usize,
}

/// A change of the words that lets a text go on.
#[derive(Clone, Copy)]
pub enum Mend {
    /// None is known.
    None,
    /// Another word in place of the one at this place.
    Instead(usize, Kind),
    /// A word before the one at this place.
    Before(usize, Kind),
    /// A statement before the word at fault.
    Statement,
    /// The end of this construct.
    End(Opener),
    /// Nothing in place of the word at fault.
    Nothing,
}

/// Why no text goes on at a place.
#[derive(Clone, Copy)]
pub struct Reason {
    /// The innermost construct that waits for its end there.
    pub opener: Option<Opener>,
    pub crossed: Option<Crossed>,
    pub mend: Mend,
}

impl Reason {
    /// That nothing is known.
    pub(crate) fn unknown() -> Reason {
        Reason {
            opener: None,
            crossed: None,
            mend: Mend::None,
        }
    }
}
