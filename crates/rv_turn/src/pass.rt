//! Passes: the right to act on the value of a turn as one actor, and one act.
ghost use Rattle.std.specs.Prelude.{◌≡◌, ℕ, ◌+◌, ◌<◌, ◌^◌, [], ◌∷◌, length};
ghost use Rattle.std.specs.Prelude.{true, Some, None, MatchResult};
ghost use Rattle.rv_turn.specs.Acts.{Holds, Changes, Releases, ActedAt};
ghost use Rattle.rv_turn.specs.Views.{is_idle};
ghost use Rattle.rv_turn.specs.Passes.{Acted, IsWorn};

use crate::counted::Counted;
use crate::hall::Hall;
use crate::rule::Place;
use crate::steps::{add_entry, draw, entries, pass_on, put_in, take_out};
use crate::waiting::{stand_back, wait_turn, wake};
use std::alloc::Global;
use std::marker::Model;
use std::sync::{Arc, Wait};
use thiserror::Error;

/// No act is left to the pass.
#[derive(Debug, Drop, Error)]
#[error("no act is left")]
pub struct Worn;

/// The right to act as one actor, so many times. Between two acts it has no ticket, and so never
/// the turn.
#[derive(Drop)]
pub struct Pass<C: Counted> {
    pub(crate) hall: Arc<Hall<C>, Global>,
    pub(crate) place: Place<C, C::Entry, C::About>,
    pub(crate) actor: u64,
    pub(crate) acts: u64,
}

impl<C: Counted> Model for Pass<C> {
    ghost use Rattle.std.specs.Arc.{arc_value};
    ghost use Rattle.rv_turn.specs.Passes.{Known, known_of, IsPass};

    ghost Value = { Known C.Entry C.About };

    ghost view = { λ p. known_of p.place.table_id p.place.me.0 p.acts };

    ghost invariant = { λ p. IsPass
        C.actor_of
        (arc_value p.hall).board.shared.table_id
        p.place.table_id
        p.place.me
        p.actor
        p.acts };
}

/// Waits for the turn, and takes the value out.
pub(crate) fn hold<C: Counted, R: Wait>(
    rt: &R,
    hall: &Hall<C>,
    place: &mut Place<C, C::Entry, C::About>,
) -> (C, u64)
    requires words { hall.now.board.shared.table_id.words ≡ 3 }
    requires seated { place.old.table_id ≡ hall.now.board.shared.table_id }
    requires idle { is_idle place.old.me.0 × (0 < place.old.me.0.acts) × (place.old.me.1 ≡ []) }
    ensures same { place.new.table_id ≡ place.old.table_id }
    ensures holds { Holds C.history C.about C.actor_of place.old.me.0 result.0 place.new.me }
    ensures count { result.1 ≡ length (C.history result.0) }
{
    stand_back::<C>(hall);
    let ticket = draw::<C>(&hall.board, place);
    wait_turn::<C, R>(rt, hall, place, ticket);
    let count = entries::<C>(&hall.board, place);
    (take_out::<C>(&hall.board, place), count)
}

/// Puts the value back, which may have one entry more, and lets the next ticket be served.
fn release<C: Counted>(
    hall: &Hall<C>,
    place: &mut Place<C, C::Entry, C::About>,
    value: C,
    more: bool,
)
    requires words { hall.now.board.shared.table_id.words ≡ 3 }
    requires seated { place.old.table_id ≡ hall.now.board.shared.table_id }
    requires turn { (place.old.me.1 ≡ (0, None) ∷ [])
        × (place.old.me.0.turn ≡ true)
        × (place.old.me.0.passes ≡ true) }
    requires value { (length (C.history value) < 2 ^ 64)
        × (place.old.me.0.about ≡ Some (C.about value)) }
    requires change { Changes C.actor_of place.old.me.0 (C.history value) more }
    ensures same { place.new.table_id ≡ place.old.table_id }
    ensures change { Releases C.actor_of place.old.me.0 (C.history value) more place.new.me }
{
    put_in::<C>(&hall.board, place, value);
    if more {
        add_entry::<C>(&hall.board, place);
    }
    pass_on::<C>(&hall.board, place);
    wake::<C>(hall);
}

/// One act of a seat, from its ticket on.
fn act_at<C: Counted, R: Wait>(
    rt: &R,
    hall: &Hall<C>,
    place: &mut Place<C, C::Entry, C::About>,
    actor: u64,
    ask: C::Ask,
) -> C::Reply
    requires words { hall.now.board.shared.table_id.words ≡ 3 }
    requires seated { place.old.table_id ≡ hall.now.board.shared.table_id }
    requires idle { is_idle place.old.me.0
        × (0 < place.old.me.0.acts)
        × (place.old.me.1 ≡ [])
        × (place.old.me.0.actor ≡ actor) }
    ensures same { place.new.table_id ≡ place.old.table_id }
    ensures idle { is_idle place.new.me.0 × (place.new.me.1 ≡ []) }
    ensures acted { ActedAt C.actor_of C.answers place.old.table_id place.old.me.0 ask result place.new.me.0 }
{
    let (mut value, before) = hold::<C, R>(rt, hall, place);
    let reply = value.act(actor, ask);
    let more = value.count() != before;
    release::<C>(hall, place, value, more);
    reply
}

/// The same, with ask and reply in a letter.
fn send_at<C: Counted, R: Wait>(
    rt: &R,
    hall: &Hall<C>,
    place: &mut Place<C, C::Entry, C::About>,
    actor: u64,
    letter: &mut C::Letter,
)
    requires words { hall.now.board.shared.table_id.words ≡ 3 }
    requires seated { place.old.table_id ≡ hall.now.board.shared.table_id }
    requires idle { is_idle place.old.me.0
        × (0 < place.old.me.0.acts)
        × (place.old.me.1 ≡ [])
        × (place.old.me.0.actor ≡ actor) }
    ensures same { place.new.table_id ≡ place.old.table_id }
    ensures idle { is_idle place.new.me.0 × (place.new.me.1 ≡ []) }
    ensures acted { ActedAt C.actor_of C.answers place.old.table_id place.old.me.0 (C.asked letter.old)
        (C.replied letter.new) place.new.me.0 }
    ensures asked { C.asked letter.new ≡ C.asked letter.old }
{
    let (mut value, before) = hold::<C, R>(rt, hall, place);
    value.answer(actor, letter);
    let is_longer = value.count() != before;
    release::<C>(hall, place, value, is_longer);
}

impl<C: Counted> Pass<C> {
    /// Whose pass it is.
    pub fn actor(&self) -> u64
        ensures { result ≡ self.now.actor }
    {
        self.actor
    }

    /// How many acts the pass may still make.
    pub fn left(&self) -> u64
        ensures { result ≡ self.now.left }
    {
        self.acts
    }

    /// One act, by this pass's actor, on the whole history. It waits for its turn. `Worn` where no
    /// act is left.
    pub fn act<R: Wait>(&mut self, rt: &R, ask: C::Ask) -> Result<C::Reply, Worn>
        ensures { MatchResult
            result
            (λ reply. Acted C.actor_of C.answers self.old ask reply self.new)
            (λ _. IsWorn self.old self.new) }
    {
        if self.acts == 0 {
            return Err(Worn);
        }
        let reply = act_at::<C, R>(rt, &self.hall, &mut self.place, self.actor, ask);
        self.acts -= 1;
        Ok(reply)
    }

    /// The same, with ask and reply in a letter, so that neither is moved.
    pub fn send<R: Wait>(&mut self, rt: &R, letter: &mut C::Letter) -> Result<(), Worn>
        ensures reply { MatchResult
            result
            (λ _. Acted C.actor_of C.answers self.old (C.asked letter.old) (C.replied letter.new)
            self.new)
            (λ _. IsWorn self.old self.new) }
        ensures asked { C.asked letter.new ≡ C.asked letter.old }
    {
        if self.acts > 0 {
            send_at::<C, R>(rt, &self.hall, &mut self.place, self.actor, letter);
            self.acts -= 1;
            return Ok(());
        }
        Err(Worn)
    }
}
