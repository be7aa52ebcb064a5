//! Faults of names.

ghost use Rattle.std.specs.Prelude.{◌≡◌, Bool, true, false, None};
ghost use Rattle.rv_names.specs.declared.fault.NameFault.TheVariants.{NoMemory};

use crate::missing::Around;
use rv_text::is_same_name;
use rv_tree::body::Block;
use rv_tree::declaration::{Parameter, ProtectedUnit};
use rv_tree::name::Identifier;
use std::alloc::{AllocError, AllocFailed};
use std::marker::Model;
use thiserror::Error;

/// What is wrong with the names of a text, with the place of the first byte of what is wrong.
#[derive(Clone, Copy, PartialEq, Eq, Debug, Drop, Error)]
pub enum NameFault {
    /// Nothing of this name is declared, or an aspect has no effect here.
    #[error("Unknown at {0}")]
    Unknown(usize),
    /// The region declares the name twice, or a body or a priority is given twice (8.3).
    #[error("Duplicate at {0}")]
    Duplicate(usize),
    /// What the name denotes lacks a `with`, a `use` or an earlier place, or is shown to no other unit (8.3).
    #[error("NotVisible at {0}")]
    NotVisible(usize),
    /// What the name denotes can't stand here, or a body is missing or isn't that of its declaration.
    #[error("WrongKind at {0}")]
    WrongKind(usize),
    /// The name after `end` isn't the opening one.
    #[error("EndName at {0}")]
    EndName(usize),
    /// Memory was refused.
    #[error("NoMemory")]
    NoMemory,
}

impl From<AllocError> for NameFault {
    ghost from_gives = { λ _ e. e ≡ NoMemory };

    fn from(_error: AllocError) -> NameFault {
        NameFault::NoMemory
    }
}

impl<T: Drop> From<AllocFailed<T>> for NameFault {
    ghost from_gives = { λ _ e. e ≡ NoMemory };

    fn from(_error: AllocFailed<T>) -> NameFault {
        NameFault::NoMemory
    }
}

impl NameFault {
    // Its place.
    fn at(self) -> usize {
        match self {
            NameFault::Unknown(at)
            | NameFault::Duplicate(at)
            | NameFault::NotVisible(at)
            | NameFault::WrongKind(at)
            | NameFault::EndName(at) => at,
            NameFault::NoMemory => 0,
        }
    }

    // Its number among the faults: of two at one place the one with the lesser number is told.
    fn number(self) -> usize {
        match self {
            NameFault::Unknown(_) => 1,
            NameFault::Duplicate(_) => 2,
            NameFault::NotVisible(_) => 3,
            NameFault::WrongKind(_) => 4,
            NameFault::EndName(_) => 5,
            NameFault::NoMemory => 6,
        }
    }

    // Whether it is told rather than another.
    fn precedes(self, other: NameFault) -> bool {
        if self.at() != other.at() {
            return self.at() < other.at();
        }
        self.number() < other.number()
    }
}

/// The earlier of two faults, or none where there is neither.
pub(crate) fn earlier(one: Option<NameFault>, other: Option<NameFault>) -> Option<NameFault>
    ensures one { result ≡ None → one ≡ None }
    ensures other { result ≡ None → other ≡ None }
{
    let Some(first) = one else {
        return other;
    };
    let Some(second) = other else {
        return one;
    };
    if second.precedes(first) { other } else { one }
}

/// What was found of a text's names so far: the fault at the least place, and whether each name is bound.
///
/// Contracts see whether each name so far is bound; no fault was told only where it is so.
#[derive(Drop)]
pub(crate) struct Faults<'a> {
    least: Option<NameFault>,
    are_bound: bool,
    /// What is declared around the point, wherever it stands.
    pub(crate) around: Around<'a>,
}

impl<'a> Model for Faults<'a> {
    ghost use Rattle.std.specs.Prelude.{◌≡◌, Bool, true, None};

    ghost Value = { Bool };

    ghost view = { λ f. f.are_bound };

    ghost invariant = { λ f. f.least ≡ None → f.are_bound ≡ true };
}

impl<'a> Faults<'a> {
    /// Nothing so far.
    pub(crate) fn new(around: Around<'a>) -> Faults<'a>
        ensures { result ≡ true }
    {
        Faults {
            least: None,
            are_bound: true,
            around,
        }
    }

    /// The fault at the least place. Without one each name is bound.
    pub(crate) fn least(&self) -> Option<NameFault>
        ensures { result ≡ None → self.now ≡ true }
    {
        self.least
    }

    /// Whether a fault at this place could be the one at the least place.
    pub(crate) fn matters(&self, at: usize) -> bool {
        match self.least {
            None => true,
            Some(least) => at <= least.at(),
        }
    }

    /// A fault is told.
    pub(crate) fn tell(&mut self, fault: NameFault)
        ensures { self.new ≡ self.old }
    {
        match self.least {
            None => self.least = Some(fault),
            Some(least) => {
                if fault.precedes(least) {
                    self.least = Some(fault);
                }
            }
        }
    }

    /// A name isn't bound, for which a fault is told.
    pub(crate) fn tell_unbound(&mut self, fault: NameFault)
        ensures { self.new ≡ false }
    {
        self.tell(fault);
        if self.least.is_none() {
            self.least = Some(fault);
        }
        self.are_bound = false;
    }

    /// The attributes are First and Last (3.5).
    pub(crate) fn attribute(&mut self, attribute: &Identifier)
        ensures { self.new ≡ self.old }
    {
        let name = attribute.text.as_str();
        if !is_same_name(name, "First") && !is_same_name(name, "Last") {
            self.tell(NameFault::Unknown(attribute.at));
        }
    }

    /// The point is in the declaration or the body of a protected unit, or in none.
    pub(crate) fn set_unit(&mut self, unit: Option<&'a ProtectedUnit>)
        ensures { self.new ≡ self.old }
    {
        self.around.unit = unit;
    }

    /// The point is among these parameters of an operation, or among none.
    pub(crate) fn set_parameters(&mut self, parameters: Option<&'a Vec<Parameter>>)
        ensures { self.new ≡ self.old }
    {
        self.around.parameters = parameters;
    }

    /// The point is in a block, or in none.
    pub(crate) fn set_block(&mut self, block: Option<&'a Block>)
        ensures { self.new ≡ self.old }
    {
        self.around.block = block;
    }
}
