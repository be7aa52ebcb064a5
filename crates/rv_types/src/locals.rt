//! What is known of the declarations of a body, in the order of its text.

ghost use Rattle.std.specs.Prelude.{◌≡◌, ◌++◌, ◌∷◌, [], true, List, OnOk};
ghost use Rattle.rv_scope.specs.declared.known.Known.{Known as KnownView};
ghost use Rattle.rv_types.specs.declared.point.Local.{Local as LocalView};
ghost use Rattle.rv_types.specs.Points.{local_at};
ghost use Rattle.rv_types.specs.Rising.{IsRising};

use crate::point::Local;
use rv_scope::Known;
use std::alloc::{AllocError, Global};
use std::marker::Model;

// What is known of the first declaration of a place.
fn found_anywhere(locals: &[Local], at: usize) -> Option<Known>
    ensures { result ≡ local_at at locals.now }
{
    for one in locals {
        if one.at == at {
            return Some(one.known);
        }
    }
    None
}

// The same, where each stands behind the one before it: of the halves only one is searched.
fn found_rising(locals: &[Local], at: usize) -> Option<Known>
    requires { IsRising locals.now }
    ensures { result ≡ local_at at locals.now }
{
    let mut left = locals;
    'halves: loop {
        let (before, behind) = left.split_at(left.len() / 2);
        let [one, more @ ..] = behind else {
            return found_anywhere(left, at);
        };
        if one.at == at {
            return Some(one.known);
        }
        if at < one.at {
            left = before;
            continue;
        }
        left = more;
    }
}

// Whether a place stands behind all of these, where each of them stands behind the one before it.
fn is_behind(locals: &[Local], at: usize) -> bool
    ensures { result ≡ true → (known : KnownView) → IsRising locals.now → IsRising (locals.now ++ record { at = at; known = known } ∷ []) }
{
    match locals {
        [] => true,
        [_before @ .., last] => last.at < at,
    }
}

/// What is known of the declarations of a body. Those of a text stand each behind the one before it, so that one of n is found
/// in the time of log n.
pub(crate) struct Locals {
    items: Vec<Local>,
    is_rising: bool,
}

impl Drop for Locals {
    // A function of its own: a derived one is written out wherever a value is let go, and proved there.
    fn drop(self) {
        let Locals {
            items: _,
            is_rising: _,
        } = self;
    }
}

impl Model for Locals {
    ghost use Rattle.std.specs.Prelude.{◌≡◌, true, List};
    ghost use Rattle.rv_types.specs.declared.point.Local.{Local};
    ghost use Rattle.rv_types.specs.Rising.{IsRising};

    ghost Value = { List Local };

    ghost view = { λ l. l.items.items };

    ghost invariant = { λ l. l.is_rising ≡ true → IsRising l.items.items };
}

impl Locals {
    /// Nothing is known.
    pub(crate) fn new(alloc: Global) -> Locals
        ensures { result ≡ [] }
    {
        Locals {
            items: Vec::new(alloc),
            is_rising: true,
        }
    }

    /// What is known of the first declaration of a place.
    pub(crate) fn find(&self, at: usize) -> Option<Known>
        ensures { result ≡ local_at at self.now }
    {
        if self.is_rising {
            return found_rising(self.items.as_slice(), at);
        }
        found_anywhere(self.items.as_slice(), at)
    }

    /// Puts one more behind the others. Err where memory was refused.
    pub(crate) fn push(&mut self, local: Local) -> Result<(), AllocError>
        ensures { OnOk result (self.new ≡ self.old ++ local ∷ []) }
    {
        if self.is_rising && is_behind(self.items.as_slice(), local.at) {
            self.items.push(local)?;
            return Ok(());
        }
        self.is_rising = false;
        self.items.push(local)?;
        Ok(())
    }

    /// Lets the last one go.
    pub(crate) fn pop(&mut self)
        ensures { (locals : List LocalView) (last : LocalView) → self.old ≡ locals ++ last ∷ [] → self.new ≡ locals }
    {
        let _last = self.items.pop();
    }
}
