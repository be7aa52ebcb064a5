//! The waits of a journal, by an observer of its audit.

ghost use Rattle.std.specs.Prelude.{◌≡◌, ◌++◌, IfOk, OnOk, codes, string_bytes};
ghost use Rattle.rv_event.specs.Lent.{whole};
ghost use Rattle.rv_event.specs.declared.entry.Entry.TheVariants.{Asked};
ghost use Rattle.rv_history.specs.History.{History};
ghost use Rattle.rv_history.specs.Legal.{empty};
ghost use Rattle.rv_history.specs.declared.limits.Limits.{Limits};
ghost use Rattle.rv_refused.specs.Filters.{FilterText};
ghost use Rattle.rv_refused.specs.Looking.{WillHold};
ghost use Rattle.rv_lasting.specs.Rows.{rows};
ghost use Rattle.rv_waits.specs.Following.{Follows, Gathers, Looks, LooksForBodies, LooksForDelays, LooksForWaits};
ghost use Rattle.rv_waits.specs.Waits.{lasting_lines, waits_text};

use crate::taking::{freed_by, turn};
use crate::told::put_all_lasting;
use rv_audit::observer::Observer;
use rv_event::entry::{Answer, EntryRef, Recorded, Request};
use rv_event::one_entry::{ended, next_of};
use rv_host::host::Host;
use rv_lasting::calls::Calls;
use rv_lasting::entries::{begun_by, delay_by, started_by, waiting_by, woken_by};
use rv_lasting::lines::put_ended;
use rv_lasting::rows::put_rows;
use rv_lasting::track::{Begun, Track};
use rv_reading::deed::Deed;
use rv_refused::Filter;
use rv_shape::catalogue::Catalogue;
use rv_shape::shape::UnitShape;
use std::alloc::{AllocError, Global};

/// Gathers the waits of a journal that a filter takes, and how long bodies lasted and how late delays ended, while it is audited.
pub struct Waits<'f> {
    alloc: Global,
    filter: Filter<'f>,
    calls: Calls,
    waits: Track,
    bodies: Track,
    delays: Track,
    tick: u64,
    text: String,
}

impl<'f> Drop for Waits<'f> {
    // A function of its own: a derived one is written out wherever one is let go, and proved there.
    fn drop(self) {
        let Waits {
            alloc: _,
            filter: _,
            calls: _,
            waits: _,
            bodies: _,
            delays: _,
            tick: _,
            text: _,
        } = self;
    }
}

impl<'f> Waits<'f> {
    /// Before the first line of a journal.
    pub fn new(alloc: Global, filter: Filter<'f>) -> Waits<'f>
        ensures filter { result.filter ≡ filter.entry }
        ensures begins { (limits : Limits) → Follows result.filter result (empty limits) }
    {
        Waits {
            alloc,
            filter,
            calls: Calls::new(alloc),
            waits: Track::new(alloc),
            bodies: Track::new(alloc),
            delays: Track::new(alloc),
            tick: 0,
            text: String::new(alloc),
        }
    }

    /// The bodies that began and haven't ended, the newest first (9.5.1).
    pub fn bodies(&self) -> &[Begun]
        ensures { result.now ≡ self.now.bodies.begun }
    {
        self.bodies.begun()
    }

    /// The delays that began and haven't ended, the newest first (9.6).
    pub fn delays(&self) -> &[Begun]
        ensures { result.now ≡ self.now.delays.begun }
    {
        self.delays.begun()
    }

    // Looks at what an entry of this number says of waits.
    fn look_for_waits(
        &mut self,
        host: &Host,
        number: usize,
        entry: &EntryRef<'_>,
    ) -> Result<(), AllocError>
        ensures { OnOk result (LooksForWaits self.old self.new host.now number (whole entry.now)) }
    {
        let tick = host.clock();
        let begun = begun_by(waiting_by(entry), number, tick);
        let freed = freed_by(host, entry);
        let it = turn(
            self.alloc,
            &self.filter,
            host,
            &mut self.waits,
            freed,
            begun,
        )?;
        put_ended(
            self.alloc,
            &mut self.text,
            host.catalogue(),
            next_of(entry),
            number,
            tick,
            it,
        )
    }

    // Looks at what it says of bodies.
    fn look_for_bodies(
        &mut self,
        host: &Host,
        number: usize,
        entry: &EntryRef<'_>,
    ) -> Result<(), AllocError>
        ensures { OnOk result (LooksForBodies self.old self.new host.now number (whole entry.now)) }
    {
        let begun = begun_by(
            started_by(host.catalogue(), &self.calls, entry),
            number,
            host.clock(),
        );
        turn(
            self.alloc,
            &self.filter,
            host,
            &mut self.bodies,
            ended(entry),
            begun,
        )?;
        self.calls.note(entry)
    }

    // Looks at what it says of delays.
    fn look_for_delays(
        &mut self,
        host: &Host,
        number: usize,
        entry: &EntryRef<'_>,
    ) -> Result<(), AllocError>
        ensures { OnOk result (LooksForDelays self.old self.new host.now number (whole entry.now)) }
    {
        turn(
            self.alloc,
            &self.filter,
            host,
            &mut self.delays,
            woken_by(entry),
            delay_by(entry, number),
        )?;
        Ok(())
    }

    // Looks at a request with the answer that is told, the entry of this number.
    fn look(
        &mut self,
        host: &Host,
        number: usize,
        actor: usize,
        request: &Request,
        word: Recorded,
    ) -> Result<(), AllocError>
        ensures { OnOk result (Looks self.old self.new host.now number (Asked actor request.now word)) }
    {
        let entry = EntryRef::Asked(actor, request, word);
        self.look_for_waits(host, number, &entry)?;
        self.look_for_bodies(host, number, &entry)?;
        self.look_for_delays(host, number, &entry)
    }

    // Puts the rows behind the lines.
    fn put_rows(&mut self, catalogue: &Catalogue) -> Result<(), AllocError>
        ensures { OnOk result (string_bytes self.new.text ≡ string_bytes self.old.text
            ++ (rows (codes "waited") catalogue.now self.old.waits.spans ++ (rows (codes "held") catalogue.now self.old.bodies.spans
            ++ rows (codes "late") catalogue.now self.old.delays.spans))) }
    {
        put_rows(
            self.alloc,
            &mut self.text,
            "waited",
            catalogue,
            self.waits.spans(),
        )?;
        put_rows(
            self.alloc,
            &mut self.text,
            "held",
            catalogue,
            self.bodies.spans(),
        )?;
        put_rows(
            self.alloc,
            &mut self.text,
            "late",
            catalogue,
            self.delays.spans(),
        )
    }

    // Puts the lines of the waits that last behind the others.
    fn put_lasting(&mut self, catalogue: &Catalogue) -> Result<(), AllocError>
        ensures text { OnOk result (string_bytes self.new.text ≡ string_bytes self.old.text
            ++ lasting_lines self.old.filter catalogue.now self.old.tick self.old.waits.begun) }
        ensures waits { self.new.waits ≡ self.old.waits }
        ensures bodies { self.new.bodies ≡ self.old.bodies }
        ensures delays { self.new.delays ≡ self.old.delays }
    {
        put_all_lasting(
            self.alloc,
            &mut self.text,
            &self.filter,
            catalogue,
            self.tick,
            self.waits.begun(),
        )
    }

    /// The lines of the waits, and how long waits, bodies and delays lasted, by the catalogue of what was loaded. Err where memory was
    /// refused.
    pub fn into_text(mut self, catalogue: &Catalogue) -> Result<String, AllocError>
        ensures { (filter : FilterText) (h : History) → catalogue.now ≡ h.shapes → Follows filter self.entry h →
            IfOk result (λ text. string_bytes text ≡ waits_text filter h) }
    {
        self.put_lasting(catalogue)?;
        self.put_rows(catalogue)?;
        let Waits {
            alloc: _,
            filter: _,
            calls: _,
            waits: _,
            bodies: _,
            delays: _,
            tick: _,
            text,
        } = self;
        Ok(text)
    }
}

impl<'f> Observer for Waits<'f> {
    ghost follows = { λ begun it units h. Follows begun.filter it h };

    ghost awaits = { λ begun it units h told. WillHold (λ after. Gathers begun.filter it after.shapes after.past) units h told };

    fn before(
        &mut self,
        _units: &[UnitShape],
        host: &Host,
        number: usize,
        deed: &Deed<'_>,
    ) -> Result<(), AllocError> {
        match *deed {
            Deed::Asks(actor, request, word) => self.look(host, number, actor, &request, word),
            Deed::Loads(_, _, _) => Ok(()),
            Deed::Lists(_, _, _) => Ok(()),
        }
    }

    fn after(
        &mut self,
        _units: &[UnitShape],
        host: &Host,
        _deed: &Deed<'_>,
        _answer: &Answer,
    ) -> Result<(), AllocError> {
        self.tick = host.clock();
        Ok(())
    }
}
