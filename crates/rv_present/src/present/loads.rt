//! Loads of units.

ghost use Rattle.std.specs.Prelude.{◌≡◌, ◌≤◌, ◌+◌, ◌++◌, ◌∷◌, [], List, length};
ghost use Rattle.rv_access.specs.Words.{Words};
ghost use Rattle.rv_event.specs.declared.entry.Entry.{Entry};
ghost use Rattle.rv_history.specs.Legal.{IsLegal};
ghost use Rattle.rv_history.specs.declared.limits.Limits.{Limits};
ghost use Rattle.rv_history.specs.Owed as owed;
ghost use Rattle.rv_present.specs.Limits.{most_actors};
ghost use Rattle.rv_present.specs.Loads.{HasGrown};
ghost use Rattle.rv_present.specs.Present.{IsBeforeLoad, IsPresent, Stands};

use crate::new_objects::put_after;
use crate::present::{Present, sum_of};
use rv_event::entry::{Entry, EntryRef};
use rv_shape::actor::FIRST_TASK;
use rv_shape::catalogue::Catalogue;
use rv_shape::shape::UnitShape;

impl Present {
    /// What the entries and all that is owed come to once the mark of a load of a unit stands, which
    /// the room may not be enough for.
    pub fn taken_with_load(&self, catalogue: &Catalogue, shape: &UnitShape) -> usize
        requires stands { Stands catalogue.now self.now }
        requires few { owed.actors catalogue.now + length shape.now.tasks ≤ most_actors }
        ensures { (limits : Limits) (before : List Entry) (lists : List (List Words)) →
            IsLegal limits before catalogue.now lists → IsPresent catalogue.now before self.now →
            result ≡ length (Entry.Load ∷ before) + owed.owed (catalogue.now ++ shape.now ∷ []) (Entry.Load ∷ before) }
    {
        let actors = self.stances.actors() + shape.tasks().len();
        let dues = self.stances.dues_of(actors);
        let halt = self.counts.halt_due_with(&EntryRef::Load);
        let unsettled = self.unsettled.number();
        1 + sum_of(
            self.counts.entries,
            self.bodies.number,
            unsettled,
            dues,
            halt,
        )
    }

    // The new objects get their initial scalars, and the new actors are among those that owe.
    fn grow(&mut self, catalogue: &Catalogue)
        requires { IsBeforeLoad catalogue.now self.old }
        ensures { HasGrown catalogue.now self.old self.new }
    {
        put_after(&mut self.bodies.objects, catalogue, self.places);
        self.places = catalogue.objects();
        self.stances.admit(FIRST_TASK + catalogue.tasks());
    }

    /// One more load, of the last of the units.
    pub fn note_load(&mut self, catalogue: &Catalogue)
        requires { IsBeforeLoad catalogue.now self.old }
        ensures { (limits : Limits) (before : List Entry) (lists : List (List Words))
            (legal : IsLegal limits (Entry.Load ∷ before) catalogue.now lists) →
            IsPresent legal.0 before self.old →
            IsPresent catalogue.now (Entry.Load ∷ before) self.new }
    {
        self.grow(catalogue);
        let change = self.change_of(catalogue, &EntryRef::Load, None);
        self.note(catalogue, &EntryRef::Load, &change);
    }
}
