//! Notes: what one pass has seen, told to another.
ghost use Rattle.std.specs.Prelude.{◌≡◌};
ghost use Rattle.rv_turn.specs.Passes.{Meets};

use crate::counted::Counted;
use crate::pass::Pass;
use crate::rule::Place;
use crate::steps::{cut_note, heed, join_note};
use std::marker::Model;

/// What a pass had seen when it made the note. It has no bytes but its type's.
#[derive(Drop)]
pub struct Note<C: Counted> {
    place: Place<C, C::Entry, C::About>,
}

impl<C: Counted> Model for Note<C> {
    ghost use Rattle.std.specs.Prelude.{◌≡◌, []};
    ghost use Rattle.rv_turn.specs.Views.{note_of};
    ghost use Rattle.rv_turn.specs.Passes.{Noted};

    ghost Value = { Noted C.Entry };

    ghost view = { λ n. record { turn = n.place.table_id; seen = n.place.me.0.seen } };

    ghost invariant = { λ n. n.place.me ≡ (note_of n.place.me.0.seen, []) };
}

impl<C: Counted> Pass<C> {
    /// What this pass has seen, to be told to another pass of this turn. It takes no memory.
    pub fn note(&mut self) -> Note<C>
        ensures note { (result.turn ≡ self.old.turn) × (result.seen ≡ self.old.seen) }
        ensures same { self.new ≡ self.old }
    {
        let place = cut_note::<C>(&self.hall.board, &mut self.place);
        Note { place }
    }

    /// From now on this pass has seen all that the note's pass had seen, and no more. The note is of this turn.
    pub fn meet(&mut self, note: Note<C>)
        requires turn { note.turn ≡ self.old.turn }
        ensures meets { Meets C.actor_of self.old note.seen self.new }
    {
        let Note { place } = note;
        join_note::<C>(&self.hall.board, &mut self.place, place);
        heed::<C>(&self.hall.board, &mut self.place);
    }
}
