//! What began and hasn't ended, and how long what ended lasted.

ghost use Rattle.std.specs.Prelude.{◌≡◌, ◌++◌, ◌∷◌, [], OnOk, position};
ghost use Rattle.rv_lasting.specs.Tracks.{closed, ended, is_of, newest_of, nothing, opened, span_at, without};

use rv_event::entry::Body;
use std::alloc::{AllocError, Global};
use std::marker::Model;

/// What began by an entry.
#[derive(Clone, Copy, Drop)]
pub struct Begun {
    /// Whose it is, and of which operation of which object; a delay has 0 for both.
    pub call: Body,
    /// The number of the entry, from 1.
    pub number: usize,
    /// The tick since which it counts: the one at which it began, and of a delay its time.
    pub tick: u64,
}

/// How long something lasted.
#[derive(Clone, Copy, Drop)]
pub struct Span {
    /// Whose it was.
    pub actor: usize,
    /// On which object; 0 for a delay.
    pub object: usize,
    /// For how many ticks.
    pub ticks: u64,
}

impl Begun {
    /// How long it has lasted at a tick.
    pub fn span_at(&self, tick: u64) -> Span
        ensures { result ≡ span_at self.now tick }
    {
        Span {
            actor: self.call.actor,
            object: self.call.object,
            ticks: tick.saturating_sub(self.tick),
        }
    }
}

/// What began and hasn't ended, the newest first, and how long what ended lasted, in the order of the ends.
pub struct Track {
    begun: Vec<Begun>,
    spans: Vec<Span>,
}

impl Drop for Track {
    // A function of its own: a derived one is written out wherever one is let go, and proved there.
    fn drop(self) {
        let Track { begun: _, spans: _ } = self;
    }
}

impl Model for Track {
    ghost use Rattle.rv_lasting.specs.Tracks.{Tracked};

    ghost Value = { Tracked };

    ghost view = { λ t. record { begun = t.begun.items; spans = t.spans.items } };
}

// The place of the newest of an actor.
fn place_of(begun: &[Begun], actor: usize) -> Option<usize>
    ensures { result ≡ position (is_of actor) begun.now }
{
    begun.iter().position(|it| it.call.actor == actor)
}

// Takes the newest of an actor out.
fn take_newest(begun: &mut Vec<Begun>, actor: usize) -> Option<Begun>
    ensures taken { result ≡ newest_of actor begun.old.items }
    ensures rest { begun.new.items ≡ without actor begun.old.items }
{
    match place_of(begun.as_slice(), actor) {
        Some(place) => Some(begun.remove(place)),
        None => None,
    }
}

impl Track {
    /// Nothing began.
    pub fn new(alloc: Global) -> Track
        ensures { result ≡ nothing }
    {
        Track {
            begun: Vec::new(alloc),
            spans: Vec::new(alloc),
        }
    }

    /// What began and hasn't ended, the newest first.
    pub fn begun(&self) -> &[Begun]
        ensures { result.now ≡ self.now.begun }
    {
        self.begun.as_slice()
    }

    /// How long what ended lasted, in the order of the ends.
    pub fn spans(&self) -> &[Span]
        ensures { result.now ≡ self.now.spans }
    {
        self.spans.as_slice()
    }

    /// One more begins, if one does.
    pub fn begin(&mut self, it: Option<Begun>) -> Result<(), AllocError>
        ensures { OnOk result (self.new ≡ record self.old { begun = opened it self.old.begun }) }
    {
        if let Some(it) = it {
            self.begun.insert(0, it)?;
        }
        Ok(())
    }

    /// The newest of an actor ends, if one's does.
    pub fn end(&mut self, actor: Option<usize>) -> Option<Begun>
        ensures ended { result ≡ ended actor self.old.begun }
        ensures rest { self.new ≡ record self.old { begun = closed actor self.old.begun } }
    {
        match actor {
            Some(actor) => take_newest(&mut self.begun, actor),
            None => None,
        }
    }

    /// What ended lasted so long.
    pub fn count(&mut self, span: Span) -> Result<(), AllocError>
        ensures { OnOk result (self.new ≡ record self.old { spans = self.old.spans ++ span ∷ [] }) }
    {
        self.spans.push(span)?;
        Ok(())
    }
}
