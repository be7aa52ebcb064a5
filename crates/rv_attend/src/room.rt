//! What is done as a journal fills: the room left is told, or the run ends.

ghost use Rattle.std.specs.Prelude.{◌≡◌, ◌-◌, true};
ghost use Rattle.rv_attend.specs.Going.{IsLow, terms};
ghost use Rattle.rv_attend.specs.declared.room.Then.TheVariants.{End};
ghost use Rattle.rv_run.specs.declared.command.Goes.TheVariants.{Out};
ghost use Rattle.rv_tally.specs.Guarding.{is_below};

use crate::attention::Attention;
use rv_run::command::Goes;
use rv_staff::{Session, say};
use rv_tally::{Due, Guard, Tally, room_line};
use std::alloc::{AllocError, Global};
use std::io::Write;
use std::time::{Clock, Duration, Instant};

// How long it is from one look at the room to the next, in milliseconds.
const BETWEEN: u64 = 20;

// How much may be due at a look: each level of room, and the end.
const MOST_DUES: usize = 6;

// What is said where a run ends for want of room.
const ENDS: &str = "journal: the run ends, as --halt-below has it\n";

/// What is looked after of the room of a journal.
#[derive(Drop)]
pub struct Room {
    alloc: Global,
    // The entries that were read, by who added them.
    pub(crate) tally: Tally,
    guard: Guard,
    // How many entries the journal may have.
    pub(crate) capacity: usize,
    tells: bool,
    // Whether anything is to be looked after.
    is_watched: bool,
    looked: Option<Instant>,
    // Whether the run ended for want of room.
    pub(crate) has_ended: bool,
}

// What comes behind what was due.
#[derive(Clone, Copy, Drop)]
enum Then {
    // What is due next.
    Next,
    // Nothing until the next look.
    Rest,
    // The end of the run.
    End,
}

impl Room {
    /// Before the run.
    pub(crate) fn new(alloc: Global, asked: &Attention) -> Room {
        let Attention {
            halt_below,
            tells,
            lasting,
            ..
        } = *asked;
        Room {
            alloc,
            tally: Tally::new(),
            guard: Guard::new(halt_below, tells && !lasting),
            capacity: 0,
            tells,
            is_watched: halt_below.is_some() || (tells && !lasting),
            looked: None,
            has_ended: false,
        }
    }

    // Whether it is time for a look.
    fn is_due<T: Clock>(&mut self, rt: &T) -> bool
        ensures { self.new.capacity ≡ self.old.capacity }
    {
        if !self.is_watched {
            return false;
        }
        let Ok(now) = Instant::now(rt) else {
            return true;
        };
        if let Some(looked) = self.looked {
            if now.duration_since(looked) < Duration::from_millis(BETWEEN) {
                return false;
            }
        }
        self.looked = Some(now);
        true
    }

    // Says a line, where notes are told and there is memory for it.
    fn tell<E: Write>(&self, line: Result<String, AllocError>, errors: &mut E) {
        if !self.tells {
            return;
        }
        if let Ok(line) = line {
            let _ = say(errors, line.as_str());
        }
    }
}

// Whether so many entries leave less room than the run is to have.
fn is_low(asked: &Attention, capacity: usize, used: usize) -> bool
    ensures { result ≡ is_below asked.now.halt_below (capacity - used) }
{
    match asked.halt_below {
        Some(least) => capacity.saturating_sub(used) < least as usize,
        None => false,
    }
}

// Says how much room is left.
fn tell_room<E: Write>(session: &Session, room: &Room, used: usize, errors: &mut E) {
    let catalogue = session.staff.catalogue();
    let line = room_line(room.alloc, catalogue, &room.tally, room.capacity, used);
    room.tell(line, errors);
}

// Does what is due. The guard finds a halt due only where the room is low.
#[tactic(auto, using(crate::proofs::GoingOn::low_due))]
fn do_due<E: Write>(
    session: &Session,
    asked: &Attention,
    room: &mut Room,
    due: Due,
    used: usize,
    errors: &mut E,
) -> Then
    ensures ends { result ≡ End → IsLow (terms asked.now room.old.capacity) used }
    ensures capacity { room.new.capacity ≡ room.old.capacity }
{
    match due {
        Due::Nothing => Then::Rest,
        Due::Tell(_) => {
            tell_room(session, room, used, errors);
            room.guard.note(due);
            Then::Next
        }
        Due::Halt if is_low(asked, room.capacity, used) => {
            room.tell(String::from_str(room.alloc, ENDS), errors);
            Then::End
        }
        Due::Halt => Then::Rest,
    }
}

/// Looks at the room that so many entries leave, at most every 20 ms, and does what is due. Gives whether the run goes on.
pub(crate) fn keep_room<T: Clock, E: Write>(
    rt: &T,
    session: &Session,
    asked: &Attention,
    room: &mut Room,
    used: usize,
    errors: &mut E,
) -> Goes
    ensures ends { result ≡ Out → IsLow (terms asked.now room.old.capacity) used }
    ensures capacity { room.new.capacity ≡ room.old.capacity }
{
    if !room.is_due(rt) {
        return Goes::On;
    }
    for _ in 0..MOST_DUES {
        let due = room
            .guard
            .next(session.staff.catalogue(), room.capacity, used);
        match do_due(session, asked, room, due, used, errors) {
            Then::Next => {}
            Then::Rest => return Goes::On,
            Then::End => {
                room.has_ended = true;
                return Goes::Out;
            }
        }
    }
    Goes::On
}
