//! The kinds of step that a pass makes on the words and the slot, each a function of its own. Its
//! comment names the event of the control host that it is: the recorded entry, or none.
ghost use Rattle.std.specs.Prelude.{◌≡◌, ℕ, ◌+◌, ◌^◌, ◌<◌, ◌≤◌, ◌≢◌, [], ◌∷◌, ◌++◌};
ghost use Rattle.std.specs.Prelude.{true, false, length, Some, None};
ghost use Rattle.rv_turn.specs.Histories.{Has};
ghost use Rattle.rv_turn.specs.Views.{queued, grown, served, note_of};
ghost use Rattle.rv_turn.specs.Views.{informed, gave, pass_of, took_in};
ghost use Rattle.rv_turn.specs.Rules.{TookTurn, Met, Heard};

use crate::counted::Counted;
use crate::rule::{
    Adds, Board, Called, Counts, Draws, Gives, Grant, Heeds, Learns, Notes, PassesOn, Place,
    TakesIn,
};

/// Loads of words 1 and 2 by no seat, which change no view and tell nothing: whether each ticket
/// that was drawn is served. Event: none.
pub(crate) fn all_served<C: Counted>(board: &Board<C, C::Entry, C::About>) -> bool
    requires { board.now.shared.table_id.words ≡ 3 }
{
    board.shared.peek(1) == board.shared.peek(2)
}

/// `fetch_add` of word 1: draws the next ticket. Event: none.
pub(crate) fn draw<C: Counted>(
    board: &Board<C, C::Entry, C::About>,
    place: &mut Place<C, C::Entry, C::About>,
) -> u64
    requires words { board.now.shared.table_id.words ≡ 3 }
    requires seated { place.old.table_id ≡ board.now.shared.table_id }
    requires idle { (place.old.me.0.turn ≡ false)
        × (place.old.me.0.ticket ≡ 0)
        × (0 < place.old.me.0.acts) }
    ensures same { place.new.table_id ≡ place.old.table_id }
    ensures queued { place.new.me ≡ (queued place.old.me.0 result, place.old.me.1) }
{
    board.shared.fetch_add::<Draws<C>>(place, 1, 1)
}

/// Load of word 2: the ticket served. Where it is the seat's own, the seat has the turn from here
/// on, and slot 0 is its own. Event: none.
pub(crate) fn now_served<C: Counted>(
    board: &Board<C, C::Entry, C::About>,
    place: &mut Place<C, C::Entry, C::About>,
) -> u64
    requires words { board.now.shared.table_id.words ≡ 3 }
    requires seated { place.old.table_id ≡ board.now.shared.table_id }
    requires waits { place.old.me.0.turn ≡ false }
    ensures same { place.new.table_id ≡ place.old.table_id }
    ensures turn { result + 1 ≡ place.old.me.0.ticket
        → TookTurn C.history C.about C.actor_of place.old.me place.new.me }
    ensures waits { result + 1 ≢ place.old.me.0.ticket → place.new.me ≡ place.old.me }
{
    board.shared.load::<Called<C>>(place, 2)
}

/// Load of word 0 by the turn's holder, in every act and before the value is taken out: how many
/// entries there are. Event: none. It gives an answer that isn't recorded the history that it is
/// answered on.
pub(crate) fn entries<C: Counted>(
    board: &Board<C, C::Entry, C::About>,
    place: &mut Place<C, C::Entry, C::About>,
) -> u64
    requires words { board.now.shared.table_id.words ≡ 3 }
    requires seated { place.old.table_id ≡ board.now.shared.table_id }
    requires turn { place.old.me.0.turn ≡ true }
    ensures same { (place.new.table_id ≡ place.old.table_id) × (place.new.me ≡ place.old.me) }
    ensures count { result ≡ length place.old.me.0.seen }
{
    board.shared.load::<Counts<C>>(place, 0)
}

/// Exchange out of slot 0 by the turn's holder: takes the value. Event: none.
pub(crate) fn take_out<C: Counted>(
    board: &Board<C, C::Entry, C::About>,
    place: &mut Place<C, C::Entry, C::About>,
) -> C
    requires board { place.old.table_id ≡ board.now.shared.table_id }
    requires full { (x : C) × (place.old.me.1 ≡ (0, Some x) ∷ []) }
    ensures same { place.new.table_id ≡ place.old.table_id }
    ensures value { place.old.me.1 ≡ (0, Some result) ∷ [] }
    ensures me { place.new.me ≡ (place.old.me.0, (0, None) ∷ []) }
{
    let Some(value) = board.shared.exchange(place, 0, None) else {
        unreachable!()
    };
    value
}

/// Exchange into slot 0 by the turn's holder: puts the value back. Event: none.
pub(crate) fn put_in<C: Counted>(
    board: &Board<C, C::Entry, C::About>,
    place: &mut Place<C, C::Entry, C::About>,
    value: C,
)
    requires board { place.old.table_id ≡ board.now.shared.table_id }
    requires empty { place.old.me.1 ≡ (0, None) ∷ [] }
    ensures same { place.new.table_id ≡ place.old.table_id }
    ensures me { place.new.me ≡ (place.old.me.0, (0, Some value) ∷ []) }
{
    let none = board.shared.exchange(place, 0, Some(value));
    let None = none else { unreachable!() };
}

/// `fetch_add` of word 0 by one, with the entry. Event: the one recorded entry. The n-th step of
/// this kind is entry n.
pub(crate) fn add_entry<C: Counted>(
    board: &Board<C, C::Entry, C::About>,
    place: &mut Place<C, C::Entry, C::About>,
)
    requires words { board.now.shared.table_id.words ≡ 3 }
    requires seated { place.old.table_id ≡ board.now.shared.table_id }
    requires turn { (place.old.me.0.turn ≡ true) × (place.old.me.0.passes ≡ true) }
    requires grown { (x : C)
        × (e : C.Entry)
        × (place.old.me.1 ≡ (0, Some x) ∷ [])
        × (C.history x ≡ place.old.me.0.seen ++ e ∷ [])
        × (C.actor_of e ≡ place.old.me.0.actor)
        × (length (C.history x) < 2 ^ 64) }
    ensures same { place.new.table_id ≡ place.old.table_id }
    ensures grown { (e : C.Entry)
        × (x : C)
        × (place.old.me.1 ≡ (0, Some x) ∷ [])
        × (C.history x ≡ place.old.me.0.seen ++ e ∷ [])
        × (C.actor_of e ≡ place.old.me.0.actor)
        × (place.new.me ≡ (grown place.old.me.0 (C.history x) e, place.old.me.1)) }
{
    board.shared.fetch_add::<Adds<C>>(place, 0, 1);
}

/// `fetch_add` of word 2: the value is home, and the next ticket is served. Event: none.
pub(crate) fn pass_on<C: Counted>(
    board: &Board<C, C::Entry, C::About>,
    place: &mut Place<C, C::Entry, C::About>,
)
    requires words { board.now.shared.table_id.words ≡ 3 }
    requires seated { place.old.table_id ≡ board.now.shared.table_id }
    requires turn { (x : C)
        × (place.old.me.1 ≡ (0, Some x) ∷ [])
        × (place.old.me.0.turn ≡ true)
        × (place.old.me.0.passes ≡ true)
        × (C.history x ≡ place.old.me.0.seen)
        × (place.old.me.0.about ≡ Some (C.about x)) }
    ensures same { place.new.table_id ≡ place.old.table_id }
    ensures me { place.new.me ≡ (served place.old.me.0, []) }
{
    board.shared.fetch_add::<PassesOn<C>>(place, 2, 1);
}

/// Load of word 0 after a pass was taken in or before a cut: the history so far. Event: none.
pub(crate) fn look<C: Counted>(
    board: &Board<C, C::Entry, C::About>,
    place: &mut Place<C, C::Entry, C::About>,
)
    requires words { board.now.shared.table_id.words ≡ 3 }
    requires seated { place.old.table_id ≡ board.now.shared.table_id }
    ensures same { place.new.table_id ≡ place.old.table_id }
    ensures looked { Met C.history C.about C.actor_of place.old.me place.new.me }
{
    board.shared.load::<Learns<C>>(place, 0);
}

/// Load of word 0 after a note was told: the seat has then seen the longer of what it had seen and what it was told. Event: none.
pub(crate) fn heed<C: Counted>(
    board: &Board<C, C::Entry, C::About>,
    place: &mut Place<C, C::Entry, C::About>,
)
    requires words { board.now.shared.table_id.words ≡ 3 }
    requires seated { place.old.table_id ≡ board.now.shared.table_id }
    requires waits { place.old.me.0.turn ≡ false }
    ensures same { place.new.table_id ≡ place.old.table_id }
    ensures heard { Heard C.history C.about C.actor_of place.old.me place.new.me }
{
    board.shared.load::<Heeds<C>>(place, 0);
}

/// `split_seat`, a load of word 0 that makes a second view: a pass for another actor. Event: none.
pub(crate) fn cut_pass<C: Counted, G: Grant>(
    board: &Board<C, C::Entry, C::About>,
    place: &mut Place<C, C::Entry, C::About>,
    actor: u64,
    acts: u64,
) -> Place<C, C::Entry, C::About>
    requires words { board.now.shared.table_id.words ≡ 3 }
    requires seated { place.old.table_id ≡ board.now.shared.table_id }
    requires grant { (actor ≡ G.actor) × (acts ≡ G.acts) }
    requires first { (place.old.me.0.first ≡ true)
        × (0 < actor)
        × (Has actor place.old.me.0.given → ⊥)
        × (acts ≤ place.old.me.0.acts) }
    ensures same { (place.new.table_id ≡ place.old.table_id)
        × (result.table_id ≡ place.old.table_id) }
    ensures gave { place.new.me ≡ (gave place.old.me.0 actor acts, place.old.me.1) }
    ensures pass { result.me ≡ (pass_of place.old.me.0 actor acts, []) }
{
    board.shared.split_seat::<Gives<G>>(place)
}

/// `split_seat`, a load of word 0 that makes a second view: a note. Event: none.
pub(crate) fn cut_note<C: Counted>(
    board: &Board<C, C::Entry, C::About>,
    place: &mut Place<C, C::Entry, C::About>,
) -> Place<C, C::Entry, C::About>
    requires words { board.now.shared.table_id.words ≡ 3 }
    requires seated { place.old.table_id ≡ board.now.shared.table_id }
    ensures same { (place.new.table_id ≡ place.old.table_id) × (place.new.me ≡ place.old.me) }
    ensures note { (result.table_id ≡ place.old.table_id)
        × (result.me ≡ (note_of place.old.me.0.seen, [])) }
{
    board.shared.split_seat::<Notes>(place)
}

/// `join_seat`, a load of word 0 that changes two views: a note is told. Event: none.
pub(crate) fn join_note<C: Counted>(
    board: &Board<C, C::Entry, C::About>,
    place: &mut Place<C, C::Entry, C::About>,
    note: Place<C, C::Entry, C::About>,
)
    requires words { board.now.shared.table_id.words ≡ 3 }
    requires seated { place.old.table_id ≡ board.now.shared.table_id }
    requires here { note.table_id ≡ board.now.shared.table_id }
    requires note { note.me ≡ (note_of note.me.0.seen, []) }
    ensures same { place.new.table_id ≡ place.old.table_id }
    ensures told { place.new.me ≡ (informed place.old.me.0 note.me.0, place.old.me.1) }
{
    board.shared.join_seat::<Notes>(place, note);
}

/// `join_seat`, a load of word 0 that changes two views: the first pass takes in another. Event:
/// none.
pub(crate) fn join_pass<C: Counted>(
    board: &Board<C, C::Entry, C::About>,
    place: &mut Place<C, C::Entry, C::About>,
    other: Place<C, C::Entry, C::About>,
)
    requires words { board.now.shared.table_id.words ≡ 3 }
    requires seated { place.old.table_id ≡ board.now.shared.table_id }
    requires here { other.table_id ≡ board.now.shared.table_id }
    requires first { place.old.me.0.first ≡ true }
    requires other { (other.me.0.first ≡ false)
        × (other.me.0.turn ≡ false)
        × (other.me.0.ticket ≡ 0)
        × (other.me.0.passes ≡ true)
        × (other.me.1 ≡ []) }
    ensures same { place.new.table_id ≡ place.old.table_id }
    ensures took { place.new.me ≡ (took_in place.old.me.0 other.me.0, place.old.me.1) }
{
    board.shared.join_seat::<TakesIn>(place, other);
}
