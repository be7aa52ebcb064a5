//! One counted history for all threads: a value that threads act on one at a time, by tickets.
//!
//! A `Turn` is made over any value that is `Counted`: one with a history, which each act leaves as
//! it is or makes longer by one entry of its actor. Threads act on the value through passes. A
//! `Pass` is the right to act as one actor, so many times; `act` draws a ticket, waits until it is
//! served, acts on the value, and lets the next ticket be served. What the caller does between two
//! acts runs outside the turn. The first pass is of actor 0. It alone cuts passes off for other
//! actors (`split`), each at most once. A `Note` tells one pass what another has seen (`note`,
//! `meet`). `Turn::close` waits for the turn once more, keeps it, takes in the passes that came
//! back, and gives the value.
//!
//! # What a contract sees
//!
//! Of a pass: its turn, its actor, how many acts are left, Seen (the longest history that it has
//! learnt), Own (the entries that it made, in order), the entries that its actor had before, and,
//! of the first pass, which actors were given a pass: the record `Known` of `specs/Passes.antt`. Of
//! a note: its turn and the Seen of the pass that made it. Of a turn: which one it is. Passes and
//! notes are used with the turn that they are of.
//!
//! # What is proved, for any `Counted`
//!
//! - `act`, and `send`, whose ask and reply stand in a letter: each act is answered as it is due on one
//!   history that begins with all that the pass had seen. After a recorded answer Seen is that history with the act's entry added, and Own has
//!   grown by it; after an unrecorded one Seen is that history, and Own is as before. Only `Worn`
//!   stands apart: it comes exactly where no act is left, and changes nothing. Before and after an
//!   act a pass has no ticket, so no turn spans two entries.
//! - The entries of a pass's actor in its Seen are its Own, behind those that the actor had before.
//!   Only actor 0 has any before: the value's history is the first pass's first Seen, and has
//!   entries of actor 0 alone.
//! - `meet`: Seen then begins with the pass's earlier Seen and with that of the note, and is one of these.
//! - `split`: the new pass has Seen as the first pass then has it, no entry of its actor in it, and
//!   the acts that were asked for, which the first pass has less. `TooFew` comes exactly where more
//!   acts are asked for than are left.
//! - `close`: the history of the value begins with the Seen of every pass that is given, has of the
//!   actor of each of them its Own, behind what was there before, and no entry of an actor that was
//!   given no pass. Each knew what of the value no act changes. It asks nothing of a pass that was lost, with a ticket or without.
//! - `make`: where there is no memory the very value comes back.
//! - One recorded entry is one `fetch_add` by one on word 0 of the table, and the rule `Kept`
//!   (`specs/Rules.antt`) holds between any two steps of any threads. Each kind of step is a
//!   function of `src/steps.rt`.
//!
//! # What is only tested
//!
//! That threads get on: eight threads of 1,000 acts each, with notes passed between them, end, and
//! their journal has each thread's entries in order. That `make`, `split` and `close` succeed where
//! there is memory.
//!
//! # What isn't said
//!
//! That a ticket is ever served, or a call returns: waiting, wake-ups, fairness, deadlock and time.
//! Tickets are served in the order in which they were drawn, but no clause says so. `close` waits
//! for ever where a pass was lost while it had a ticket that comes before. A pass first stands back
//! from drawing a ticket while others have one, for a short while; then it waits by a short spin,
//! by letting other threads run, and then asleep.
#![tactic(auto)]

mod counted;
mod hall;
mod notes;
mod pass;
mod rule;
mod split;
mod steps;
mod turn;
mod view;
mod waiting;

pub use counted::Counted;
pub use notes::Note;
pub use pass::{Pass, Worn};
pub use split::SplitFault;
pub use turn::Turn;
