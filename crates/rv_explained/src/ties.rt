//! What ties entries to one another: calls, waits and bodies, and since when the list in force is so.

ghost use Rattle.std.specs.Prelude.{◌≡◌, OnOk, option_copied};
ghost use Rattle.rv_access.specs.Lines.{line_at};
ghost use Rattle.rv_event.specs.Lent.{whole};
ghost use Rattle.rv_event.specs.Past.{next_of};
ghost use Rattle.rv_event.specs.declared.entry.Entry.TheVariants.{Asked};
ghost use Rattle.rv_history.specs.History.{force};
ghost use Rattle.rv_history.specs.Legal.{empty};
ghost use Rattle.rv_history.specs.declared.limits.Limits.{Limits};
ghost use Rattle.rv_refused.specs.Kept.{dropping_number};
ghost use Rattle.rv_explained.specs.Following.{EndsAre, KeepsTies, NotesBodies, NotesRest, NotesTies, NotesWaits};

use crate::drops::Drops;
use crate::turns::ended_in;
use rv_access::Line;
use rv_asked::deciding::line_in_force;
use rv_asked::holding::Holding;
use rv_event::entry::{EntryRef, Next, Recorded, Request};
use rv_event::one_entry::{ended, next_of};
use rv_host::host::Host;
use rv_lasting::calls::Calls;
use rv_lasting::entries::{begun_by, started_by, waiting_by};
use rv_lasting::track::{Begun, Track};
use rv_waits::taking::freed_by;
use std::alloc::{AllocError, Global};

/// What an entry ends.
#[derive(Clone, Copy, Drop)]
pub struct Ends {
    /// A wait (9.5.3, D.10).
    pub wait: Option<Begun>,
    /// A body (9.5.1).
    pub body: Option<Begun>,
}

/// What is kept of the entries so far.
pub struct Ties {
    holding: Holding,
    calls: Calls,
    waits: Track,
    bodies: Track,
    drops: Drops,
    list_entry: usize,
}

impl Drop for Ties {
    // A function of its own: a derived one is written out wherever one is let go, and proved there.
    fn drop(self) {
        let Ties {
            holding: _,
            calls: _,
            waits: _,
            bodies: _,
            drops: _,
            list_entry: _,
        } = self;
    }
}

// The line of the list in force by which an entry drops a caller, if it drops one by a line.
fn dropping_line<'h>(host: &'h Host, entry: &EntryRef<'_>) -> Option<&'h Line>
    ensures { option_copied result ≡ line_at (force host.now) (dropping_number (next_of (whole entry.now))) }
{
    match next_of(entry) {
        Next::Nothing => None,
        Next::HandedTo(_) => None,
        Next::Dropped(_, number) => line_in_force(host, number),
    }
}

impl Ties {
    /// Before the first entry.
    pub fn new(alloc: Global) -> Ties
        ensures { (limits : Limits) → KeepsTies result (empty limits) }
    {
        Ties {
            holding: Holding::new(alloc),
            calls: Calls::new(alloc),
            waits: Track::new(alloc),
            bodies: Track::new(alloc),
            drops: Drops::new(alloc),
            list_entry: 0,
        }
    }

    /// For whom actors call.
    pub fn holding(&self) -> &Holding
        ensures { result.now ≡ self.now.holding }
    {
        &self.holding
    }

    /// How each actor was last dropped.
    pub fn drops(&self) -> &Drops
        ensures { result.now ≡ self.now.drops }
    {
        &self.drops
    }

    /// The number of the entry that brought the list in force; 0 where none was set.
    pub fn list_entry(&self) -> usize
        ensures { result ≡ self.now.list_entry }
    {
        self.list_entry
    }

    /// The waits that began and haven't ended, the newest first (9.5.3, D.10).
    pub fn waits(&self) -> &[Begun]
        ensures { result.now ≡ self.now.waits.begun }
    {
        self.waits.begun()
    }

    /// The bodies that began and haven't ended, the newest first (9.5.1).
    pub fn bodies(&self) -> &[Begun]
        ensures { result.now ≡ self.now.bodies.begun }
    {
        self.bodies.begun()
    }

    /// What the next entry ends.
    pub fn ends(&self, host: &Host, entry: &EntryRef<'_>) -> Ends
        ensures { EndsAre self.now host.now (whole entry.now) result }
    {
        Ends {
            wait: ended_in(self.waits.begun(), freed_by(host, entry)),
            body: ended_in(self.bodies.begun(), ended(entry)),
        }
    }

    // Notes the waits that the next entry, of this number, begins and ends.
    fn note_waits(
        &mut self,
        host: &Host,
        number: usize,
        entry: &EntryRef<'_>,
    ) -> Result<(), AllocError>
        ensures { OnOk result (NotesWaits self.old self.new host.now number (whole entry.now)) }
    {
        self.waits.end(freed_by(host, entry));
        self.waits
            .begin(begun_by(waiting_by(entry), number, host.clock()))
    }

    // Notes the bodies that it begins and ends.
    fn note_bodies(
        &mut self,
        host: &Host,
        number: usize,
        entry: &EntryRef<'_>,
    ) -> Result<(), AllocError>
        ensures { OnOk result (NotesBodies self.old self.new host.now number (whole entry.now)) }
    {
        let started = started_by(host.catalogue(), &self.calls, entry);
        self.bodies.end(ended(entry));
        self.bodies.begin(begun_by(started, number, host.clock()))
    }

    // Notes the calls, drops and subjects that it says something of.
    fn note_rest(
        &mut self,
        host: &Host,
        number: usize,
        entry: &EntryRef<'_>,
    ) -> Result<(), AllocError>
        ensures { OnOk result (NotesRest self.old self.new host.now number (whole entry.now)) }
    {
        let line = dropping_line(host, entry);
        self.drops.note(number, self.list_entry, entry, line)?;
        self.holding.note(host.catalogue(), entry)?;
        self.calls.note(entry)
    }

    /// Notes a request with its answer, the next entry, of this number. Err where memory was refused.
    pub fn note(
        &mut self,
        host: &Host,
        number: usize,
        actor: usize,
        request: &Request,
        word: Recorded,
    ) -> Result<(), AllocError>
        ensures { OnOk result (NotesTies self.old self.new host.now number (Asked actor request.now word)) }
    {
        let entry = EntryRef::Asked(actor, request, word);
        self.note_waits(host, number, &entry)?;
        self.note_bodies(host, number, &entry)?;
        self.note_rest(host, number, &entry)
    }

    /// Notes that the entry of this number changes the list.
    pub fn set_list(&mut self, number: usize)
        ensures { self.new ≡ record self.old { list_entry = number } }
    {
        self.list_entry = number;
    }
}
