//! How many entries and list changes there were, how many entries were given up, the clock, and whether the host is halted.

ghost use Rattle.std.specs.Prelude.{◌≡◌, ◌<◌, ◌≤◌, ◌+◌, ◌^◌, ◌∷◌, List, false, length};
ghost use Rattle.rv_event.specs.Lent.{whole};
ghost use Rattle.rv_event.specs.Past as past;
ghost use Rattle.rv_event.specs.declared.entry.Body.{Body};
ghost use Rattle.rv_event.specs.declared.entry.Entry.{Entry};
ghost use Rattle.rv_history.specs.History.{changes};
ghost use Rattle.rv_history.specs.Owed as owed;
ghost use Rattle.rv_present.specs.Counts.{AreCounts};
ghost use Rattle.rv_present.specs.Unsettled.{counted};

use rv_event::entry::{Body, EntryRef};
use rv_event::one_entry::{archives, halts, is_list, ticks};

/// How many bodies there are, of so many, once one is gone, if one is, and one has come, if one has.
pub fn number_after(number: usize, gone: bool, come: Option<Body>) -> usize
    requires few { number < 2 ^ 32 }
    ensures value { (left : List Body) → number ≡ length left + counted gone →
        result ≡ length (past.begun come left) }
    ensures within { result ≤ number + 1 }
{
    let left = number.saturating_sub(if gone { 1 } else { 0 });
    match come {
        Some(_body) => left + 1,
        None => left,
    }
}

/// What entries come to that concern no actor and no object.
#[derive(Drop)]
pub struct Counts {
    /// How many entries there are.
    pub entries: usize,
    /// How many of the first entries were given up (own).
    pub archived: usize,
    /// How many list changes there were.
    pub version: usize,
    /// The sum of the accepted ticks (D.8).
    pub clock: u64,
    /// Whether there is an accepted halt.
    pub is_halted: bool,
}

impl Counts {
    /// Of no entries.
    pub fn new() -> Counts
        ensures { result ≡ record { entries = 0; archived = 0; version = 0; clock = 0; is_halted = false } }
    {
        Counts {
            entries: 0,
            archived: 0,
            version: 0,
            clock: 0,
            is_halted: false,
        }
    }

    // Whether the host is halted once an entry more stands.
    fn is_halted_with(&self, entry: &EntryRef) -> bool
        ensures { (before : List Entry) → self.now.is_halted ≡ past.halted before →
            result ≡ past.halted (whole entry.now ∷ before) }
    {
        halts(entry) || self.is_halted
    }

    /// How many of the first entries were given up once an entry more stands (own).
    pub fn archived_with(&self, entry: &EntryRef) -> usize
        ensures { (before : List Entry) → self.now.archived ≡ past.archived before →
            result ≡ past.archived (whole entry.now ∷ before) }
    {
        match archives(entry) {
            Some(number) => number,
            None => self.archived,
        }
    }

    // How many list changes there are once an entry more stands.
    fn version_with(&self, entry: &EntryRef) -> usize
        requires { self.now.version < 2 ^ 48 }
        ensures { (before : List Entry) → self.now.version ≡ changes before →
            result ≡ changes (whole entry.now ∷ before) }
    {
        if is_list(entry) {
            self.version + 1
        } else {
            self.version
        }
    }

    /// 1 for the halt, while there is none.
    pub fn halt_due(&self) -> usize
        ensures value { result ≡ owed.halt_due self.now.is_halted }
        ensures within { result ≤ 1 }
    {
        if self.is_halted { 0 } else { 1 }
    }

    /// 1 for the halt, while there is none, once an entry more stands.
    pub fn halt_due_with(&self, entry: &EntryRef) -> usize
        ensures value { (before : List Entry) → self.now.is_halted ≡ past.halted before →
            result ≡ owed.halt_due (past.halted (whole entry.now ∷ before)) }
        ensures within { result ≤ 1 }
    {
        if self.is_halted_with(entry) { 0 } else { 1 }
    }

    /// One more entry.
    pub fn note(&mut self, entry: &EntryRef)
        requires entries { self.old.entries < 2 ^ 48 }
        requires version { self.old.version < 2 ^ 48 }
        requires clock { self.old.clock + past.ticks (whole entry.now) < 2 ^ 63 }
        ensures { (before : List Entry) → AreCounts before self.old →
            AreCounts (whole entry.now ∷ before) self.new }
    {
        self.is_halted = self.is_halted_with(entry);
        self.archived = self.archived_with(entry);
        self.version = self.version_with(entry);
        self.clock += ticks(entry);
        self.entries += 1;
    }
}
