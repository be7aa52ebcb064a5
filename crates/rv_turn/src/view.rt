//! What a seat of the table knows. No value of these types is made: they stand in proofs alone.
use std::collections::LinkedList;

/// What is kept of a pass that was joined: its actor, the entries that it made, the history that it
/// had seen, and what of the value no act changes.
pub struct Joined<E, A> {
    pub about: Option<A>,
    pub actor: u64,
    pub own: LinkedList<E>,
    pub seen: LinkedList<E>,
}

/// What a seat knows. A clause reads a linked list as a list, of any length.
pub struct View<E, A> {
    /// Of a pass: what of the value no act changes.
    pub about: Option<A>,
    /// The longest history that the seat has learnt.
    pub seen: LinkedList<E>,
    /// The entries that the pass made, in order.
    pub own: LinkedList<E>,
    /// The history of the note that was told last.
    pub told: LinkedList<E>,
    /// True for a pass, false for a note and for a seat that is spent.
    pub passes: bool,
    /// The actor of the pass.
    pub actor: u64,
    /// How many tickets the pass may still draw.
    pub acts: u64,
    /// 0, or 1 more than the seat's ticket.
    pub ticket: u64,
    /// True from the time when the ticket is served until the value is home again.
    pub turn: bool,
    /// True for the first pass.
    pub first: bool,
    /// The actor's entries in the opening history.
    pub base: LinkedList<E>,
    /// Of the first pass: the actors that were given a pass.
    pub given: LinkedList<u64>,
    /// Of the first pass: the passes that were joined.
    pub kept: LinkedList<Joined<E, A>>,
}
