//! The rule of the table behind a turn, and what each kind of step tells.
ghost use Rattle.std.specs.Prelude.{ℕ};

use crate::counted::Counted;
use crate::view::View;
use atomic_table::{Join, Play, Seat, Split, Table, TableRule};
use std::alloc::Global;
use std::marker::{Brand, PhantomData};
use std::snapshot::Snapshot;

/// The rule: one history for all seats.
pub struct InTurn<C> {
    of: PhantomData<C>,
}

impl<C: Counted> TableRule<Option<C>, View<C::Entry, C::About>, Snapshot<C>> for InTurn<C> {
    ghost use Rattle.rv_turn.specs.Rules.{Kept};
    ghost use Rattle.rv_turn.specs.Views.{opening_view};

    ghost holds = { λ key. Kept C.history C.about C.actor_of key.value };

    ghost first = { λ key. opening_view C.actor_of (C.about key.value) (C.history key.value) };
}

/// A ticket is drawn.
pub struct Draws<C> {
    of: PhantomData<C>,
}

impl<C: Counted> Play<Option<C>, View<C::Entry, C::About>> for Draws<C> {
    ghost use Rattle.rv_turn.specs.Rules.{drew};

    ghost then = { drew C.history C.about C.actor_of };
}

/// The ticket served is read.
pub struct Called<C> {
    of: PhantomData<C>,
}

impl<C: Counted> Play<Option<C>, View<C::Entry, C::About>> for Called<C> {
    ghost use Rattle.rv_turn.specs.Rules.{called};

    ghost then = { called C.history C.about C.actor_of };
}

/// The turn's holder reads how many entries there are.
pub struct Counts<C> {
    of: PhantomData<C>,
}

impl<C: Counted> Play<Option<C>, View<C::Entry, C::About>> for Counts<C> {
    ghost use Rattle.rv_turn.specs.Rules.{counted};

    ghost then = { counted C.history C.about C.actor_of };
}

/// An entry is counted.
pub struct Adds<C> {
    of: PhantomData<C>,
}

impl<C: Counted> Play<Option<C>, View<C::Entry, C::About>> for Adds<C> {
    ghost use Rattle.rv_turn.specs.Rules.{added};

    ghost then = { added C.history C.about C.actor_of };
}

/// The next ticket is served.
pub struct PassesOn<C> {
    of: PhantomData<C>,
}

impl<C: Counted> Play<Option<C>, View<C::Entry, C::About>> for PassesOn<C> {
    ghost use Rattle.rv_turn.specs.Rules.{passed};

    ghost then = { passed C.history C.about C.actor_of };
}

/// The history so far is learnt.
pub struct Learns<C> {
    of: PhantomData<C>,
}

impl<C: Counted> Play<Option<C>, View<C::Entry, C::About>> for Learns<C> {
    ghost use Rattle.rv_turn.specs.Rules.{learned};

    ghost then = { learned C.history C.about C.actor_of };
}

/// What was told is taken in.
pub struct Heeds<C> {
    of: PhantomData<C>,
}

impl<C: Counted> Play<Option<C>, View<C::Entry, C::About>> for Heeds<C> {
    ghost use Rattle.rv_turn.specs.Rules.{heard};

    ghost then = { heard C.history C.about C.actor_of };
}

/// A note is cut off a pass, and told to another.
pub struct Notes;

impl<E, A> Split<View<E, A>> for Notes {
    ghost use Rattle.rv_turn.specs.Views.{note_of};

    ghost left = { λ v. v };

    ghost right = { λ v. note_of v.seen };
}

impl<E, A> Join<View<E, A>> for Notes {
    ghost use Rattle.std.specs.Prelude.{[]};
    ghost use Rattle.rv_turn.specs.Views.{informed, note_of};

    ghost both = { informed };

    ghost spent = { note_of [] };
}

/// What a new pass is given: its actor, and how many acts.
pub trait Grant {
    ghost actor: { ℕ };

    ghost acts: { ℕ };
}

impl Grant for Brand {
    ghost actor = { 0 };

    ghost acts = { 0 };
}

/// A pass is cut off the first pass.
pub struct Gives<G> {
    of: PhantomData<G>,
}

impl<E, A, G: Grant> Split<View<E, A>> for Gives<G> {
    ghost use Rattle.rv_turn.specs.Views.{gave, pass_of};

    ghost left = { λ v. gave v G.actor G.acts };

    ghost right = { λ v. pass_of v G.actor G.acts };
}

/// A pass is taken in by the first pass.
pub struct TakesIn;

impl<E, A> Join<View<E, A>> for TakesIn {
    ghost use Rattle.std.specs.Prelude.{[]};
    ghost use Rattle.rv_turn.specs.Views.{took_in, note_of};

    ghost both = { took_in };

    ghost spent = { note_of [] };
}

/// The words, the slot and the rule.
pub(crate) type Board<C, E, A> = Table<Option<C>, View<E, A>, Snapshot<C>, InTurn<C>, Global>;

/// A view of the board.
pub(crate) type Place<C, E, A> = Seat<Option<C>, View<E, A>>;
