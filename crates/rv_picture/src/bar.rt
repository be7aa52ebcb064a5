//! What a timeline shows: bars, and the entries that are its scale.

ghost use Rattle.std.specs.Prelude.{◌≡◌, IfOk};
ghost use Rattle.rv_picture.specs.Bars.{covers, has, in_frame, is_from, is_on, is_until, showing, shows, within};

use rv_lasting::track::Begun;
use std::alloc::{AllocError, Global};

/// What a bar stands for.
#[derive(Clone, Copy, Drop)]
pub enum Kind {
    /// A wait in a queue (9.5.3) or on a suspension object (D.10).
    Wait,
    /// A body that is under way (9.5.1).
    Body,
    /// A delay (9.6).
    Delay,
    /// A request that was refused, at one entry.
    Refused,
}

/// What an actor was at, from the entry that begins it to the one that ends it.
#[derive(Clone, Copy, Drop)]
pub struct Bar {
    /// What it stands for.
    pub kind: Kind,
    /// Whose it is and of what, by which entry it began and at which tick; of a delay it is the tick of its time.
    pub begun: Begun,
    /// The number of the entry that ends it, if one does.
    pub last: Option<usize>,
    /// The tick there; where none does, that of the end of the journal.
    pub to: u64,
}

/// An entry, as the scale of a timeline has it.
#[derive(Clone, Copy, Drop)]
pub struct Moment {
    /// Its number, from 1.
    pub number: usize,
    /// The clock before it.
    pub tick: u64,
}

/// Which entries are shown: from the first to the last of these numbers, where they are given.
#[derive(Clone, Copy, Drop)]
pub struct Frame {
    /// The number of the first.
    pub first: Option<usize>,
    /// The number of the last.
    pub last: Option<usize>,
}

// Whether the entry of a number is not before the one of another, where that is given.
fn is_from(first: Option<usize>, entry: usize) -> bool
    ensures { result ≡ is_from first entry }
{
    match first {
        Some(first) => first <= entry,
        None => true,
    }
}

// Whether the entry of a number is not behind the one of another, where that is given.
fn is_until(last: Option<usize>, entry: usize) -> bool
    ensures { result ≡ is_until last entry }
{
    match last {
        Some(last) => entry <= last,
        None => true,
    }
}

impl Bar {
    /// Whether it is of an actor on an object.
    pub fn is_on(&self, actor: usize, object: usize) -> bool
        ensures { result ≡ is_on actor object self.now }
    {
        self.begun.call.actor == actor && self.begun.call.object == object
    }

    /// Whether it reaches over the entry of a number.
    pub fn covers(&self, entry: usize) -> bool
        ensures { result ≡ covers entry self.now }
    {
        self.begun.number <= entry && is_until(self.last, entry)
    }

    /// Whether it has a part between two entries.
    pub fn shows(&self, first: usize, last: usize) -> bool
        ensures { result ≡ shows first last self.now }
    {
        self.begun.number <= last && is_until(self.last, first)
    }
}

impl Frame {
    /// Whether the entry of a number is shown.
    pub fn has(&self, entry: usize) -> bool
        ensures { result ≡ has self.now entry }
    {
        is_from(self.first, entry) && is_until(self.last, entry)
    }
}

/// The entries that are shown. Err where memory was refused.
pub fn in_frame(alloc: Global, frame: &Frame, moments: &[Moment]) -> Result<Vec<Moment>, AllocError>
    ensures { IfOk result (λ shown. shown.items ≡ in_frame frame.now moments.now) }
{
    let mut shown = Vec::new(alloc);
    for moment in moments {
        if frame.has(moment.number) {
            shown.push(*moment)?;
        }
    }
    Ok(shown)
}

// The bars that have a part between two entries. Err where memory was refused.
fn showing(alloc: Global, first: usize, last: usize, bars: &[Bar]) -> Result<Vec<Bar>, AllocError>
    ensures { IfOk result (λ shown. shown.items ≡ showing first last bars.now) }
{
    let mut shown = Vec::new(alloc);
    for bar in bars {
        if bar.shows(first, last) {
            shown.push(*bar)?;
        }
    }
    Ok(shown)
}

/// The bars that have a part in these entries, which follow one another. Err where memory was refused.
pub fn within(alloc: Global, moments: &[Moment], bars: &[Bar]) -> Result<Vec<Bar>, AllocError>
    ensures { IfOk result (λ shown. shown.items ≡ within moments.now bars.now) }
{
    let Some(first) = moments.first() else {
        return Ok(Vec::new(alloc));
    };
    let Some(last) = moments.last() else {
        return Ok(Vec::new(alloc));
    };
    showing(alloc, first.number, last.number, bars)
}
