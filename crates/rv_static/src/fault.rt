//! What is wrong with the types of a text.

ghost use Rattle.std.specs.Prelude.{◌≡◌, is_some, true, false};

use std::marker::Model;
use thiserror::Error;

/// What is wrong with the types of a text, and the place of what is wrong: a byte of the text, from 0.
#[derive(Clone, Copy, PartialEq, Eq, Debug, Error, Drop)]
pub enum TypeFault {
    /// A type, or a number of arguments, doesn't fit (4.5, 4.6, 6.4).
    #[error("Mismatch at {0}")]
    Mismatch(usize),
    /// A value has to be static and isn't (4.9).
    #[error("NotStatic at {0}")]
    NotStatic(usize),
    /// What can't be written is (3.3, 6.1, 9.5.1).
    #[error("ConstantWritten at {0}")]
    ConstantWritten(usize),
    /// An actual of `out` or `in out` isn't a variable, or a parameter of a function isn't `in` (6.4.1).
    #[error("BadMode at {0}")]
    BadMode(usize),
    /// A static value isn't one of its subtype, or its divisor is 0 (own).
    #[error("TooLarge at {0}")]
    TooLarge(usize),
    /// A value stands in no choice, or in several (5.4).
    #[error("BadChoice at {0}")]
    BadChoice(usize),
    /// Memory was refused.
    #[error("NoMemory")]
    NoMemory,
}

impl TypeFault {
    // Its place, and its number among the faults at one place. Want of memory comes before all: it is told where it occurs.
    fn order(self) -> (usize, usize) {
        match self {
            TypeFault::Mismatch(at) => (at, 1),
            TypeFault::NotStatic(at) => (at, 2),
            TypeFault::ConstantWritten(at) => (at, 3),
            TypeFault::BadMode(at) => (at, 4),
            TypeFault::TooLarge(at) => (at, 5),
            TypeFault::BadChoice(at) => (at, 6),
            TypeFault::NoMemory => (0, 0),
        }
    }

    // Whether it is told in place of the other.
    fn precedes(self, other: TypeFault) -> bool {
        let (place, number) = self.order();
        let (other_place, other_number) = other.order();
        place < other_place || place == other_place && number < other_number
    }
}

/// The fault at the least place of those told so far, of several there the one of the least number; `NoMemory` before all.
///
/// Contracts see whether one was told.
#[derive(Drop)]
pub struct Faults {
    first: Option<TypeFault>,
}

impl Model for Faults {
    ghost use Rattle.std.specs.Prelude.{Bool, is_some};

    ghost Value = { Bool };

    ghost view = { λ faults. is_some faults.first };
}

impl Faults {
    /// None was told.
    pub fn new() -> Faults
        ensures { result ≡ false }
    {
        Faults { first: None }
    }

    /// Tells a fault.
    pub fn tell(&mut self, fault: TypeFault)
        ensures { self.new ≡ true }
    {
        match self.first {
            None => self.first = Some(fault),
            Some(first) => {
                if fault.precedes(first) {
                    self.first = Some(fault);
                }
            }
        }
    }

    /// The first fault, if one was told.
    pub fn first(&self) -> Option<TypeFault>
        ensures { is_some result ≡ self.now }
    {
        self.first
    }
}
