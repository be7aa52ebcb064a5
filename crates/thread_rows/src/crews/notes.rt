//! Notes that are told through a channel. Both ends know of what turn they are: that of the first note.

ghost use Rattle.std.specs.Prelude.{◌≡◌, IfOk, IfSome};
ghost use Rattle.crossbeam_channel.specs.Claims.{view, IsSeatAt};
ghost use Rattle.crossbeam_channel.specs.Ends.{receives_on, sends_on};
ghost use Rattle.thread_rows.specs.OneTurn.{IsFor};

use crate::stage::waiting::LOOKS;
use crossbeam_channel::protocol::{Lesson, Outcome, Protocol, Split};
use crossbeam_channel::{Pass, RuledReceiver, RuledSender, TryRecvError, bounded_with};
use rv_port::note::Note;
use std::alloc::Global;
use std::sync::Wait;
use std::thread;

// How many notes may be on their way.
const NOTES: usize = 2;

/// All notes on their way are of one turn, and all ends know it.
pub struct OneTurn;

impl Protocol<Note, Option<Note>> for OneTurn {
    ghost use Rattle.std.specs.Prelude.{None};
    ghost use Rattle.thread_rows.specs.OneTurn.{AreOfOne};

    ghost holds = { AreOfOne };

    ghost first = { None };
}

// Both ends know what one knew.
struct Both;

impl Split<Option<Note>> for Both {
    ghost left = { λ v. v };

    ghost right = { λ v. v };
}

// A note is sent, whose turn is known then.
struct Sent;

impl Outcome<Note, Option<Note>> for Sent {
    ghost use Rattle.std.specs.Prelude.{◌≡◌, Some};

    ghost then = { λ v note w. w ≡ Some note };
}

impl Lesson<Note, Option<Note>> for Sent {
    ghost use Rattle.std.specs.Prelude.{⊤};

    ghost fact = { λ v notes. ⊤ };
}

// A note comes, of the turn that is known.
struct Came;

impl Outcome<Note, Option<Note>> for Came {
    ghost use Rattle.std.specs.Prelude.{◌≡◌};
    ghost use Rattle.thread_rows.specs.OneTurn.{IsFor};

    ghost then = { λ v note w. (w ≡ v) × IsFor note.turn v };
}

impl Lesson<Note, Option<Note>> for Came {
    ghost use Rattle.std.specs.Prelude.{⊤};

    ghost fact = { λ v notes. ⊤ };
}

/// Who tells notes.
#[derive(Drop)]
pub struct Teller {
    notes: RuledSender<Note, Option<Note>, OneTurn>,
    pass: Pass<Note, Option<Note>>,
    ghost at: { IsSeatAt (sends_on notes) pass },
}

/// Who hears them.
#[derive(Drop)]
pub struct Hearer {
    notes: RuledReceiver<Note, Option<Note>, OneTurn>,
    pass: Pass<Note, Option<Note>>,
    ghost at: { IsSeatAt (receives_on notes) pass },
}

/// The two ends of a channel, with the first note on its way. None where there is no memory.
pub fn ends<R: Wait>(rt: &R, alloc: Global, note: Note) -> Option<(Teller, Hearer)>
    ensures { IfSome result (λ ends. IsFor note.turn (view ends.0.pass) × IsFor note.turn (view ends.1.pass)) }
{
    let (sender, receiver, mut pass): (
        RuledSender<Note, Option<Note>, OneTurn>,
        RuledReceiver<Note, Option<Note>, OneTurn>,
        Pass<Note, Option<Note>>,
    ) = bounded_with(alloc, NOTES).ok()?;
    sender.try_send_as::<Sent, R>(rt, &mut pass, note).ok()?;
    let other = sender.another::<Both>(&mut pass);
    let teller = Teller {
        notes: sender,
        pass,
    };
    let hearer = Hearer {
        notes: receiver,
        pass: other,
    };
    Some((teller, hearer))
}

impl Teller {
    /// Tells a note more, where there is room.
    pub fn tell<R: Wait>(&mut self, rt: &R, note: Note)
        requires { IsFor note.turn (view self.old.pass) }
        ensures { IsFor note.turn (view self.new.pass) }
    {
        let _ = self.notes.try_send_as::<Sent, R>(rt, &mut self.pass, note);
    }
}

impl Hearer {
    // Looks for the next note.
    fn look<R: Wait>(&mut self, rt: &R) -> Result<Note, TryRecvError>
        ensures note { IfOk result (λ note. IsFor note.turn (view self.old.pass)) }
        ensures same { view self.new.pass ≡ view self.old.pass }
    {
        self.notes.try_recv_as::<Came, R>(rt, &mut self.pass)
    }

    /// The next note. None where it doesn't come within so many looks, or never will.
    pub fn hear<R: Wait>(&mut self, rt: &R) -> Option<Note>
        ensures note { IfSome result (λ note. IsFor note.turn (view self.old.pass)) }
        ensures same { view self.new.pass ≡ view self.old.pass }
    {
        for _ in 0..LOOKS {
            match self.look(rt) {
                Ok(note) => return Some(note),
                Err(TryRecvError::Disconnected) => return None,
                Err(_) => thread::yield_now(),
            }
        }
        None
    }
}
