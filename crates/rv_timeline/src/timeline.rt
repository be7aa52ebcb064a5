//! What a timeline shows, by an observer of a journal's audit.

ghost use Rattle.std.specs.Prelude.{◌≡◌, ◌++◌, IfOk, OnOk, string_bytes};
ghost use Rattle.rv_event.specs.Lent.{whole};
ghost use Rattle.rv_event.specs.Past.{clock};
ghost use Rattle.rv_event.specs.declared.entry.Entry.TheVariants.{Asked};
ghost use Rattle.rv_history.specs.History.{History};
ghost use Rattle.rv_history.specs.Legal.{empty};
ghost use Rattle.rv_history.specs.declared.limits.Limits.{Limits};
ghost use Rattle.rv_refused.specs.Looking.{WillHold};
ghost use Rattle.rv_timeline.specs.Following.{Follows, Gathers, Looks, LooksForBodies, LooksForDelays, LooksForRefusal, LooksForWaits, NotesMoment};
ghost use Rattle.rv_timeline.specs.Timelines.{drawn_text, lasting_bars, timeline_text};
ghost use Rattle.rv_timeline.specs.declared.timeline.Wish.{Wish};

use crate::bars::{add_bar, add_lasting_bars, if_taken};
use crate::refused::refused_by;
use rv_audit::observer::Observer;
use rv_event::entry::{Answer, EntryRef, Recorded, Request};
use rv_event::one_entry::ended;
use rv_host::host::Host;
use rv_lasting::calls::Calls;
use rv_lasting::entries::{begun_by, delay_by, started_by, waiting_by, woken_by};
use rv_lasting::track::Track;
use rv_picture::bar::{Bar, Frame, Kind, Moment};
use rv_picture::letters::letters;
use rv_picture::svg::svg;
use rv_reading::deed::Deed;
use rv_refused::Filter;
use rv_shape::catalogue::Catalogue;
use rv_shape::shape::UnitShape;
use rv_waits::taking::{freed_by, turn};
use std::alloc::{AllocError, Global};

/// What form a timeline has.
#[derive(Clone, Copy, Drop)]
pub enum Form {
    /// Rows of letters, for a terminal.
    Letters,
    /// A picture, in SVG.
    Svg,
}

/// What is asked of a timeline.
#[derive(Drop)]
pub struct Wish<'f> {
    /// What it takes, by whose it is, of what, and by where it began.
    pub filter: Filter<'f>,
    /// Which entries it shows.
    pub frame: Frame,
    /// What form it has.
    pub form: Form,
}

/// Gathers what a timeline shows of a journal while it is audited.
pub struct Timeline<'f> {
    alloc: Global,
    wish: Wish<'f>,
    calls: Calls,
    waits: Track,
    bodies: Track,
    delays: Track,
    bars: Vec<Bar>,
    moments: Vec<Moment>,
    tick: u64,
}

impl<'f> Drop for Timeline<'f> {
    // A function of its own: a derived one is written out wherever one is let go, and proved there.
    fn drop(self) {
        let Timeline {
            alloc: _,
            wish: _,
            calls: _,
            waits: _,
            bodies: _,
            delays: _,
            bars: _,
            moments: _,
            tick: _,
        } = self;
    }
}

// What is drawn of these bars over these entries.
fn drawn(
    alloc: Global,
    form: Form,
    frame: &Frame,
    catalogue: &Catalogue,
    moments: &[Moment],
    bars: &[Bar],
) -> Result<String, AllocError>
    ensures { IfOk result (λ text. string_bytes text ≡ drawn_text form frame.now catalogue.now moments.now bars.now) }
{
    match form {
        Form::Letters => letters(alloc, frame, catalogue, moments, bars),
        Form::Svg => svg(alloc, frame, catalogue, moments, bars),
    }
}

impl<'f> Timeline<'f> {
    /// Before the first line of a journal.
    pub fn new(alloc: Global, wish: Wish<'f>) -> Timeline<'f>
        ensures wish { result.wish ≡ wish.entry }
        ensures begins { (limits : Limits) → Follows result.wish result (empty limits) }
    {
        Timeline {
            alloc,
            wish,
            calls: Calls::new(alloc),
            waits: Track::new(alloc),
            bodies: Track::new(alloc),
            delays: Track::new(alloc),
            bars: Vec::new(alloc),
            moments: Vec::new(alloc),
            tick: 0,
        }
    }

    // Notes an entry of this number.
    fn note_moment(&mut self, host: &Host, number: usize) -> Result<(), AllocError>
        ensures { OnOk result (NotesMoment self.old self.new number (clock host.now.past)) }
    {
        let tick = host.clock();
        self.moments.push(Moment { number, tick })?;
        Ok(())
    }

    // Looks at what an entry of this number says of waits.
    fn look_for_waits(
        &mut self,
        host: &Host,
        number: usize,
        entry: &EntryRef<'_>,
    ) -> Result<(), AllocError>
        ensures { OnOk result (LooksForWaits self.old self.new host.now number (whole entry.now)) }
    {
        let tick = host.clock();
        let begun = begun_by(waiting_by(entry), number, tick);
        let freed = freed_by(host, entry);
        let it = turn(
            self.alloc,
            &self.wish.filter,
            host,
            &mut self.waits,
            freed,
            begun,
        )?;
        add_bar(&mut self.bars, Kind::Wait, it, Some(number), tick)
    }

    // Looks at what it says of bodies.
    fn look_for_bodies(
        &mut self,
        host: &Host,
        number: usize,
        entry: &EntryRef<'_>,
    ) -> Result<(), AllocError>
        ensures { OnOk result (LooksForBodies self.old self.new host.now number (whole entry.now)) }
    {
        let tick = host.clock();
        let begun = begun_by(
            started_by(host.catalogue(), &self.calls, entry),
            number,
            tick,
        );
        let it = turn(
            self.alloc,
            &self.wish.filter,
            host,
            &mut self.bodies,
            ended(entry),
            begun,
        )?;
        add_bar(&mut self.bars, Kind::Body, it, Some(number), tick)
    }

    // Looks at what it says of delays.
    fn look_for_delays(
        &mut self,
        host: &Host,
        number: usize,
        entry: &EntryRef<'_>,
    ) -> Result<(), AllocError>
        ensures { OnOk result (LooksForDelays self.old self.new host.now number (whole entry.now)) }
    {
        let it = turn(
            self.alloc,
            &self.wish.filter,
            host,
            &mut self.delays,
            woken_by(entry),
            delay_by(entry, number),
        )?;
        add_bar(&mut self.bars, Kind::Delay, it, Some(number), host.clock())
    }

    // Looks whether it was refused, and notes the call that it queued.
    fn look_for_refusal(
        &mut self,
        host: &Host,
        number: usize,
        entry: &EntryRef<'_>,
    ) -> Result<(), AllocError>
        ensures { OnOk result (LooksForRefusal self.old self.new host.now number (whole entry.now)) }
    {
        let tick = host.clock();
        let refused = refused_by(host.catalogue(), &self.calls, entry);
        let it = if_taken(
            self.alloc,
            &self.wish.filter,
            host.catalogue(),
            begun_by(refused, number, tick),
        )?;
        add_bar(&mut self.bars, Kind::Refused, it, Some(number), tick)?;
        self.calls.note(entry)
    }

    // Looks at a request with the answer that is told, the entry of this number.
    fn look(
        &mut self,
        host: &Host,
        number: usize,
        actor: usize,
        request: &Request,
        word: Recorded,
    ) -> Result<(), AllocError>
        ensures { OnOk result (Looks self.old self.new host.now number (Asked actor request.now word)) }
    {
        let entry = EntryRef::Asked(actor, request, word);
        self.look_for_waits(host, number, &entry)?;
        self.look_for_bodies(host, number, &entry)?;
        self.look_for_delays(host, number, &entry)?;
        self.look_for_refusal(host, number, &entry)
    }

    // Adds the bars of what is under way behind the others.
    fn add_lasting(&mut self, catalogue: &Catalogue) -> Result<(), AllocError>
        ensures bars { OnOk result (self.new.bars.items ≡ self.old.bars.items
            ++ (lasting_bars Kind.Wait self.old.wish.filter catalogue.now self.old.tick self.old.waits.begun
            ++ (lasting_bars Kind.Body self.old.wish.filter catalogue.now self.old.tick self.old.bodies.begun
            ++ lasting_bars Kind.Delay self.old.wish.filter catalogue.now self.old.tick self.old.delays.begun))) }
        ensures wish { self.new.wish ≡ self.old.wish }
        ensures moments { self.new.moments.items ≡ self.old.moments.items }
    {
        add_lasting_bars(
            self.alloc,
            &mut self.bars,
            &self.wish.filter,
            catalogue,
            Kind::Wait,
            self.tick,
            self.waits.begun(),
        )?;
        add_lasting_bars(
            self.alloc,
            &mut self.bars,
            &self.wish.filter,
            catalogue,
            Kind::Body,
            self.tick,
            self.bodies.begun(),
        )?;
        add_lasting_bars(
            self.alloc,
            &mut self.bars,
            &self.wish.filter,
            catalogue,
            Kind::Delay,
            self.tick,
            self.delays.begun(),
        )
    }

    /// The timeline, by the catalogue of what was loaded. Err where memory was refused.
    pub fn into_text(mut self, catalogue: &Catalogue) -> Result<String, AllocError>
        ensures { (wish : Wish) (h : History) → catalogue.now ≡ h.shapes → Follows wish self.entry h →
            IfOk result (λ text. string_bytes text ≡ timeline_text wish h) }
    {
        self.add_lasting(catalogue)?;
        drawn(
            self.alloc,
            self.wish.form,
            &self.wish.frame,
            catalogue,
            self.moments.as_slice(),
            self.bars.as_slice(),
        )
    }
}

impl<'f> Observer for Timeline<'f> {
    ghost follows = { λ begun it units h. Follows begun.wish it h };

    ghost awaits = { λ begun it units h told. WillHold (λ after. Gathers begun.wish it after.shapes after.past) units h told };

    fn before(
        &mut self,
        _units: &[UnitShape],
        host: &Host,
        number: usize,
        deed: &Deed<'_>,
    ) -> Result<(), AllocError> {
        self.note_moment(host, number)?;
        match *deed {
            Deed::Asks(actor, request, word) => self.look(host, number, actor, &request, word),
            Deed::Loads(_, _, _) => Ok(()),
            Deed::Lists(_, _, _) => Ok(()),
        }
    }

    fn after(
        &mut self,
        _units: &[UnitShape],
        host: &Host,
        _deed: &Deed<'_>,
        _answer: &Answer,
    ) -> Result<(), AllocError> {
        self.tick = host.clock();
        Ok(())
    }
}
