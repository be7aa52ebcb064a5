//! Short lists of whole numbers that are copied: the values of a call's parameters, and those of an object's
//! components.

ghost use Rattle.std.specs.Prelude.{◌≡◌, ◌+◌, ◌<◌, ◌≤◌, List, [], ◌∷◌, ◌++◌, length, slice_get, IsTrue, ◌↔◌};
ghost use Rattle.std.specs.Cmp.{int_eq_equiv, partial_equiv_from_equiv};
ghost use Rattle.std.specs.Cmp.Lexicographic.{lists_equiv, pointwise};
ghost use Rattle.std.specs.Ordering.{int_eq};

use std::fmt;
use std::marker::Model;

/// The most parameters that a protected operation has; the limit is our own.
pub const MOST_ARGS: usize = 4;

/// The most components that a protected object has; the limit is our own.
pub const MOST_SCALARS: usize = 32;

/// The values of a call's parameters, in the order of their declaration.
pub type Args = Bounded<MOST_ARGS>;

/// The values of a protected object's components, in the order of their declaration.
pub type Scalars = Bounded<MOST_SCALARS>;

/// At most `LIMIT` values, in order.
///
/// Contracts see the list of the values.
#[derive(Clone, Copy)]
pub struct Bounded<const LIMIT: usize> {
    // The values, and 0 in each cell behind them.
    cells: [i64; LIMIT],
    // How many values there are.
    len: usize,
}

impl<const LIMIT: usize> Model for Bounded<LIMIT> {
    ghost use Rattle.std.specs.Prelude.{List, ℤ, take, length};
    ghost use Rattle.rv_value.specs.Padded.{IsPadded, with_zeros, with_zeros-take, length-take-padded};

    ghost Value = { List ℤ };

    ghost view = { λ s. take s.len s.cells };

    ghost invariant = { λ s. IsPadded LIMIT s.cells s.len };

    ghost inverse = { λ v. record { cells = with_zeros LIMIT v; len = length v } };

    ghost inverse_ok = { λ a h. λ i. record { cells = with_zeros-take h i; len = length-take-padded h i } };
}

impl<const LIMIT: usize> Bounded<LIMIT> {
    /// No values.
    pub fn new() -> Bounded<LIMIT>
        ensures { result ≡ [] }
    {
        Bounded {
            cells: [0; LIMIT],
            len: 0,
        }
    }

    /// The values of a slice, of which there must be at most `LIMIT`.
    pub fn from_slice(values: &[i64]) -> Bounded<LIMIT>
        requires { length values.now ≤ LIMIT }
        ensures { result ≡ values.now }
    {
        let mut list = Bounded::new();
        for value in values {
            list.push(*value);
        }
        list
    }

    /// How many values there are.
    pub fn len(&self) -> usize
        ensures value { result ≡ length self.now }
        ensures within { length self.now ≤ LIMIT }
    {
        self.as_slice().len()
    }

    /// Whether there are no values.
    pub fn is_empty(&self) -> bool
        ensures { IsTrue result ↔ (self.now ≡ []) }
    {
        self.len == 0
    }

    /// Whether there is no room for another value.
    pub fn is_full(&self) -> bool
        ensures full { IsTrue result ↔ (length self.now ≡ LIMIT) }
        ensures within { length self.now ≤ LIMIT }
    {
        self.len == LIMIT
    }

    /// Adds a value at the end. There must be room.
    pub fn push(&mut self, value: i64)
        requires { length self.old < LIMIT }
        ensures { self.new ≡ self.old ++ value ∷ [] }
    {
        self.cells[self.len] = value;
        self.len += 1;
    }

    /// The value at an index from 0, or `None` past the end.
    pub fn get(&self, index: usize) -> Option<i64>
        ensures { result ≡ slice_get self.now index }
    {
        self.as_slice().get(index).copied()
    }

    /// The values, in order.
    pub fn as_slice(&self) -> &[i64]
        ensures value { result.now ≡ self.now }
        ensures within { length self.now ≤ LIMIT }
    {
        &self.cells[..self.len]
    }
}

impl<const LIMIT: usize> PartialEq for Bounded<LIMIT> {
    ghost eq = { pointwise int_eq };

    ghost laws = { partial_equiv_from_equiv (lists_equiv int_eq_equiv) };

    fn eq(&self, other: &Self) -> bool
        ensures value { result ≡ pointwise int_eq self.now other.now }
        ensures same { IsTrue result ↔ (self.now ≡ other.now) }
    {
        self.as_slice() == other.as_slice()
    }
}

impl<const LIMIT: usize> Eq for Bounded<LIMIT> {
    ghost laws = { lists_equiv int_eq_equiv };
}

impl<const LIMIT: usize> fmt::Debug for Bounded<LIMIT> {
    fn fmt<W: fmt::Write>(&self, f: &mut fmt::Formatter<W>) -> fmt::Result {
        f.debug_list().entries(self.as_slice()).finish()
    }
}
