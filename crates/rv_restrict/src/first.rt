//! The first violation of those that were met so far.

ghost use Rattle.std.specs.Prelude.{◌≡◌, map, None};
ghost use Rattle.rv_tree.specs.DeclarationView.{maybe};
ghost use Rattle.rv_restrict.specs.Found.{broken, broken_unless, earlier, is_behind, maybe_noted, each_noted};

use crate::violation::{Restriction, Violation};
use std::marker::Model;

#[derive(Drop)]
pub(crate) struct First {
    violation: Option<Violation>,
}

impl Model for First {
    ghost use Rattle.std.specs.Prelude.{Option};
    ghost use Rattle.rv_restrict.specs.declared.violation.Violation.{Violation};

    ghost Value = { Option Violation };

    ghost view = { λ first. first.violation };
}

impl First {
    pub(crate) fn new() -> First
        ensures { result ≡ None }
    {
        First { violation: None }
    }

    pub(crate) fn found(&self) -> Option<Violation>
        ensures { result ≡ self.now }
    {
        self.violation
    }

    // A restriction is broken at a place.
    pub(crate) fn note(&mut self, restriction: Restriction, place: usize)
        ensures { self.new ≡ broken earlier restriction place self.old }
    {
        let violation = Violation { restriction, place };
        match self.violation {
            None => self.violation = Some(violation),
            Some(first) => {
                if !first.precedes(violation) {
                    self.violation = Some(violation);
                }
            }
        }
    }

    // Whether a violation that was noted before this one precedes it, so that this one changes nothing.
    pub(crate) fn precedes(&self, violation: Violation) -> bool
        ensures { result ≡ is_behind violation self.now }
    {
        match self.violation {
            None => false,
            Some(first) => first.precedes(violation),
        }
    }

    pub(crate) fn note_unless(&mut self, keeps: bool, restriction: Restriction, place: usize)
        ensures { self.new ≡ broken_unless earlier keeps restriction place self.old }
    {
        if !keeps {
            self.note(restriction, place);
        }
    }

    pub(crate) fn maybe<T: Judged>(&mut self, part: &Option<T>)
        ensures { self.new ≡ maybe_noted T.noted (maybe T.view part.now) self.old }
    {
        match part {
            None => {}
            Some(part) => part.judge(self),
        }
    }

    pub(crate) fn each<T: Judged>(&mut self, parts: &[T])
        ensures { self.new ≡ each_noted T.noted (map T.view parts.now) self.old }
    {
        for part in parts {
            part.judge(self);
        }
    }
}

/// A part of a unit, which is asked for the violations in it.
pub(crate) trait Judged {
    ghost use Rattle.std.specs.Prelude.{Option};
    ghost use Rattle.rv_restrict.specs.declared.violation.Violation.{Violation};

    ghost Tree: { Type 0 };

    ghost view: { Self → Tree };

    ghost noted: { Tree → Option Violation → Option Violation };

    fn judge(&self, first: &mut First)
        ensures { first.new ≡ noted (view self.now) first.old };
}
