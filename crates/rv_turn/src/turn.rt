//! A turn: made over a value, and closed for the value.
ghost use Rattle.std.specs.Prelude.{◌≡◌, ℕ, ◌<◌, ◌++◌, true, false, [], ◌∷◌};
ghost use Rattle.std.specs.Prelude.{Some, None, IfOk, IfErr, map};
ghost use Rattle.rv_turn.specs.Histories.{mine, Each, NoStrangers};
ghost use Rattle.rv_turn.specs.Views.{opening_view, keeping};
ghost use Rattle.rv_turn.specs.Passes.{opening_of, kept_of, StandsIn};

use crate::counted::Counted;
use crate::hall::Hall;
use crate::pass::{Pass, hold};
use crate::rule::{Board, Place};
use crate::steps::{cut_note, join_pass, look};
use atomic_table::{Refused, Table};
use std::alloc::{AllocFailed, Global};
use std::marker::Model;
use std::snapshot::Snapshot;
use std::sync::atomic::AtomicU64;
use std::sync::{Arc, Wait};

// How many acts the first pass may make. It has one ticket more, for the close.
const ACTS: u64 = 1 << 62;

/// One value that threads act on one at a time. It names the turn: passes and notes are used with
/// their own turn.
#[derive(Drop)]
pub struct Turn<C: Counted> {
    place: Place<C, C::Entry, C::About>,
}

impl<C: Counted> Model for Turn<C> {
    ghost use Rattle.atomic_table.specs.Seated.{TableId, table_id_coded};

    ghost Value = { TableId };

    ghost coded = { table_id_coded };

    ghost view = { λ t. t.place.table_id };
}

impl<C: Counted> Turn<C> {
    /// The turn over a value that has entries of actor 0 alone, and its first pass, which is of
    /// actor 0, has seen the value's history, and may make 2^62 acts. Where there is no memory the
    /// very value comes back.
    pub fn make(alloc: Global, value: C) -> Result<(Turn<C>, Pass<C>), AllocFailed<C>>
        requires alone { (a : ℕ) → 0 < a → mine C.actor_of a (C.history value) ≡ [] }
        ensures ok { IfOk
            result
            (λ t. t.1 ≡ opening_of t.0 (C.about value) C.actor_of (C.history value)) }
        ensures err { IfErr result (λ e. e.value ≡ value) }
    {
        let (board, mut place) = match open::<C>(alloc, value) {
            Ok(made) => made,
            Err(failed) => return Err(failed),
        };
        let hall = Hall {
            board,
            sleepers: AtomicU64::new(0),
        };
        match Arc::new(alloc, hall) {
            Ok(hall) => {
                let name = cut_note::<C>(&hall.board, &mut place);
                let first = Pass {
                    hall,
                    place,
                    actor: 0,
                    acts: ACTS,
                };
                Ok((Turn { place: name }, first))
            }
            Err(AllocFailed { value: hall }) => Err(AllocFailed {
                value: unmade::<C>(hall, place),
            }),
        }
    }

    /// The value. It waits for the turn and keeps it, so no pass that is still out acts any more,
    /// and takes in the passes that came back. The passes are of this turn.
    pub fn close<R: Wait>(self, rt: &R, first: Pass<C>, others: Vec<Pass<C>>) -> C
        requires first { (first.first ≡ true) × (first.turn ≡ self) }
        requires others { Each (λ p. (p.first ≡ false) × (p.turn ≡ self)) others.items }
        ensures first { StandsIn C.actor_of (C.history result) first }
        ensures others { Each (StandsIn C.actor_of (C.history result)) others.items }
        ensures limits { Each (λ p. p.about ≡ Some (C.about result)) others.items }
        ensures strangers { NoStrangers C.actor_of (C.history result) first.given }
        ensures about { first.about ≡ Some (C.about result) }
    {
        let Pass {
            hall,
            mut place,
            ..
        } = first;
        let (value, _count) = hold::<C, R>(rt, &hall, &mut place);
        take_all::<C>(&hall, &mut place, others);
        look::<C>(&hall.board, &mut place);
        value
    }
}

/// Makes the table and its first seat. Event: none.
fn open<C: Counted>(
    alloc: Global,
    value: C,
) -> Result<(Board<C, C::Entry, C::About>, Place<C, C::Entry, C::About>), AllocFailed<C>>
    requires alone { (a : ℕ) → 0 < a → mine C.actor_of a (C.history value) ≡ [] }
    ensures board { IfOk
        result
        (λ t.
        (t.0.shared.table_id.words ≡ 3)
        × (t.0.shared.table_id.slots ≡ 1)
        × (t.1.table_id ≡ t.0.shared.table_id)
        × (t.0.shared.key.value ≡ value)) }
    ensures me { IfOk
        result
        (λ t. t.1.me ≡ (opening_view C.actor_of (C.about value) (C.history value), [])) }
    ensures err { IfErr result (λ e. e.value ≡ value) }
{
    let about = Snapshot::of(&value);
    let count = value.count();
    let mut slots = Vec::new(alloc);
    if slots.reserve(1).is_err() {
        return Err(AllocFailed { value });
    }
    slots.push_reserved(Some(value));
    match Table::new(alloc, &[count, 0, 0], slots, &about) {
        Ok(made) => Ok(made),
        Err(Refused { slots }) => Err(AllocFailed {
            value: only::<C>(slots),
        }),
    }
}

/// The value of a list that has one slot.
fn only<C: Counted>(mut slots: Vec<Option<C>>) -> C
    requires { (x : C) × (slots.items ≡ Some x ∷ []) }
    ensures { slots.items ≡ Some result ∷ [] }
{
    let Some(Some(value)) = slots.pop() else {
        unreachable!()
    };
    value
}

/// The value of a table on which no act was made.
fn unmade<C: Counted>(hall: Hall<C>, place: Place<C, C::Entry, C::About>) -> C
    requires board { (hall.board.shared.table_id.words ≡ 3)
        × (hall.board.shared.table_id.slots ≡ 1)
        × (place.table_id ≡ hall.board.shared.table_id) }
    requires fresh { place.me.0.acts ≡ 4611686018427387905 }
    ensures { result ≡ hall.board.shared.key.value }
{
    let Hall { board, .. } = hall;
    let mut closed = board.close_with(place);
    let slot = closed.take(0);
    closed.free();
    let Some(value) = slot else { unreachable!() };
    value
}

/// Takes in the passes that came back.
fn take_all<C: Counted>(
    hall: &Hall<C>,
    place: &mut Place<C, C::Entry, C::About>,
    mut others: Vec<Pass<C>>,
)
    requires words { hall.now.board.shared.table_id.words ≡ 3 }
    requires seated { place.old.table_id ≡ hall.now.board.shared.table_id }
    requires first { place.old.me.0.first ≡ true }
    requires others { Each (λ p. (p.first ≡ false) × (p.turn ≡ place.old.table_id)) others.items }
    ensures same { (place.new.table_id ≡ place.old.table_id) × (place.new.me.1 ≡ place.old.me.1) }
    ensures kept { place.new.me.0
        ≡ keeping place.old.me.0 (map kept_of others.items ++ place.old.me.0.kept) }
{
    while let Some(other) = others.pop() {
        take_in::<C>(hall, place, other);
    }
}

/// Keeps, in the first pass, what another pass had done and seen.
fn take_in<C: Counted>(hall: &Hall<C>, place: &mut Place<C, C::Entry, C::About>, other: Pass<C>)
    requires words { hall.now.board.shared.table_id.words ≡ 3 }
    requires seated { place.old.table_id ≡ hall.now.board.shared.table_id }
    requires first { place.old.me.0.first ≡ true }
    requires other { (other.first ≡ false) × (other.turn ≡ place.old.table_id) }
    ensures same { place.new.table_id ≡ place.old.table_id }
    ensures kept { place.new.me
        ≡ (keeping place.old.me.0 (kept_of other ∷ place.old.me.0.kept), place.old.me.1) }
{
    let Pass { place: spent, .. } = other;
    join_pass::<C>(&hall.board, place, spent);
}
