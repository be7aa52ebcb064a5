//! What is kept of the entries so far.

ghost use Rattle.std.specs.Prelude.{◌≡◌, OnOk, option_copied};
ghost use Rattle.rv_access.specs.Lines.{line_at};
ghost use Rattle.rv_event.specs.Lent.{whole};
ghost use Rattle.rv_event.specs.Past.{next_of};
ghost use Rattle.rv_event.specs.declared.entry.Entry.TheVariants.{Asked};
ghost use Rattle.rv_history.specs.History.{History, force};
ghost use Rattle.rv_history.specs.Legal.{empty};
ghost use Rattle.rv_history.specs.declared.limits.Limits.{Limits};
ghost use Rattle.rv_refused.specs.Kept.{dropping_number};
ghost use Rattle.rv_waits.specs.Lasting.{Bodies, end_of};
ghost use Rattle.rv_export.specs.Kept.{Keeps, KeepsBut, Notes, NotesBody, NotesRest};

use crate::drops::Drops;
use crate::left::Left;
use rv_access::Line;
use rv_asked::deciding::line_in_force;
use rv_asked::holding::Holding;
use rv_event::entry::{EntryRef, Next, Recorded, Request};
use rv_event::one_entry::{ended, next_of};
use rv_host::host::Host;
use rv_lasting::calls::Calls;
use rv_lasting::entries::{begun_by, started_by};
use rv_lasting::track::{Begun, Track};
use std::alloc::{AllocError, Global};

/// What is kept of the entries so far.
pub struct Kept {
    holding: Holding,
    calls: Calls,
    bodies: Track,
    left: Left,
    drops: Drops,
}

impl Drop for Kept {
    // A function of its own: a derived one is written out wherever one is let go, and proved there.
    fn drop(self) {
        let Kept {
            holding: _,
            calls: _,
            bodies: _,
            left: _,
            drops: _,
        } = self;
    }
}

// The line of the list in force by which an entry drops a caller, if it drops one by a line.
fn dropping_line<'h>(host: &'h Host, entry: &EntryRef<'_>) -> Option<&'h Line>
    ensures { option_copied result ≡ line_at (force host.now) (dropping_number (next_of (whole entry.now))) }
{
    match next_of(entry) {
        Next::Nothing => None,
        Next::HandedTo(_) => None,
        Next::Dropped(_, number) => line_in_force(host, number),
    }
}

impl Kept {
    /// Before the first entry.
    pub fn new(alloc: Global) -> Kept
        ensures { (limits : Limits) → Keeps result (empty limits) }
    {
        Kept {
            holding: Holding::new(alloc),
            calls: Calls::new(alloc),
            bodies: Track::new(alloc),
            left: Left::new(alloc),
            drops: Drops::new(alloc),
        }
    }

    /// For whom actors call.
    pub fn holding(&self) -> &Holding
        ensures { result.now ≡ self.now.holding }
    {
        &self.holding
    }

    /// The newest entry that left each actor waiting.
    pub fn left(&self) -> &Left
        ensures { result.now ≡ self.now.left }
    {
        &self.left
    }

    /// By which line each actor was last dropped.
    pub fn drops(&self) -> &Drops
        ensures { result.now ≡ self.now.drops }
    {
        &self.drops
    }

    /// The next entry ends its body, if it ends one: this one.
    pub fn end(&mut self, entry: &EntryRef<'_>) -> Option<Begun>
        ensures ended { (h : History) → Keeps self.old h → result ≡ end_of Bodies h.shapes h.past (whole entry.now) }
        ensures kept { (h : History) → Keeps self.old h → KeepsBut self.new h (whole entry.now) }
    {
        self.bodies.end(ended(entry))
    }

    // Notes the body that the entry of this number begins.
    fn note_body(
        &mut self,
        host: &Host,
        number: usize,
        entry: &EntryRef<'_>,
    ) -> Result<(), AllocError>
        ensures { OnOk result (NotesBody self.old self.new host.now number (whole entry.now)) }
    {
        let started = started_by(host.catalogue(), &self.calls, entry);
        self.bodies.begin(begun_by(started, number, host.clock()))
    }

    // Notes the rest that it says.
    fn note_rest(
        &mut self,
        host: &Host,
        number: usize,
        entry: &EntryRef<'_>,
    ) -> Result<(), AllocError>
        ensures { OnOk result (NotesRest self.old self.new host.now number (whole entry.now)) }
    {
        self.drops.note(entry, dropping_line(host, entry))?;
        self.left.note(number, host.clock(), entry)?;
        self.holding.note(host.catalogue(), entry)?;
        self.calls.note(entry)
    }

    /// Notes a request with its answer, the next entry, of this number, which has ended its body. Err where memory was refused.
    pub fn note(
        &mut self,
        host: &Host,
        number: usize,
        actor: usize,
        request: &Request,
        word: Recorded,
    ) -> Result<(), AllocError>
        ensures { OnOk result (Notes self.old self.new host.now number (Asked actor request.now word)) }
    {
        let entry = EntryRef::Asked(actor, request, word);
        self.note_body(host, number, &entry)?;
        self.note_rest(host, number, &entry)
    }
}
