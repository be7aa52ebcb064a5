//! What is kept of each actor, so that a resume that is refused tells of its call: the last call that it had queued, and the words of
//! the line by which it was last dropped.

ghost use Rattle.std.specs.HashMap.{get};
ghost use Rattle.std.specs.Prelude.{◌≡◌, ◌==◌, ◌∷◌, ℕ, List, [], OnOk, if◌then◌else◌, nat_eq, option_copied};
ghost use Rattle.rv_access.specs.Lines.{line_at};
ghost use Rattle.rv_access.specs.Words.{Words};
ghost use Rattle.rv_event.specs.Lent.{whole};
ghost use Rattle.rv_event.specs.Past.{last_queued, next_of};
ghost use Rattle.rv_event.specs.declared.entry.Entry.{Entry};
ghost use Rattle.rv_history.specs.History.{last_list};
ghost use Rattle.rv_history.specs.Journal.{lists_before};
ghost use Rattle.rv_refused.specs.Kept.{Keeps, KeepsDrops, dropping_number, words_in};
ghost use Rattle.rv_refused.specs.Refusals.{dropping_words, line_words};

use crate::reasons::line_words;
use rv_access::Line;
use rv_event::entry::{Body, EntryRef, Next};
use rv_event::one_entry::next_of;
use rv_lasting::calls::Calls;
use std::alloc::{AllocError, Global};
use std::collections::HashMap;

/// The last queued call of each actor, and the words of the line by which it was last dropped.
pub struct Kept {
    alloc: Global,
    calls: Calls,
    drops: HashMap<usize, String>,
}

impl Drop for Kept {
    // A function of its own: a derived one is written out wherever one is let go, and proved there.
    fn drop(self) {
        let Kept {
            alloc: _,
            calls: _,
            drops: _,
        } = self;
    }
}

impl Kept {
    /// Before the first entry.
    pub fn new(alloc: Global) -> Kept
        ensures { Keeps result [] [] }
    {
        Kept {
            alloc,
            calls: Calls::new(alloc),
            drops: HashMap::new(alloc),
        }
    }

    /// The last call of an actor that was queued.
    pub fn call(&self, actor: usize) -> Option<Body>
        ensures { (past : List Entry) (lists : List (List Words)) → Keeps self.now past lists → result ≡ last_queued actor past }
    {
        self.calls.of(actor)
    }

    /// The words of the line by which an actor was last dropped; empty where it never was.
    pub fn dropped_by(&self, actor: usize) -> &str
        ensures { (past : List Entry) (lists : List (List Words)) → Keeps self.now past lists → result.now ≡ dropping_words actor past lists }
    {
        match self.drops.get(&actor) {
            Some(words) => words.as_str(),
            None => "",
        }
    }

    // Notes the words of the line by which a caller is dropped.
    fn drop_by(&mut self, actor: usize, line: Option<&Line>) -> Result<(), AllocError>
        ensures drops { OnOk result ((past : List Entry) (lists : List (List Words)) → KeepsDrops self.old past lists
            → (other : ℕ) → words_in (get nat_eq self.new.drops other)
            ≡ (if actor == other then line_words (option_copied line.entry) else dropping_words other past lists)) }
        ensures calls { self.new.calls ≡ self.old.calls }
    {
        let words = line_words(self.alloc, line)?;
        self.drops.insert(actor, words)?;
        Ok(())
    }

    /// Notes what becomes of a queue, where this is the line of a list that drops its first caller, if one does.
    pub fn note(&mut self, entry: &EntryRef<'_>, line: Option<&Line>) -> Result<(), AllocError>
        ensures { OnOk result ((past : List Entry) (lists : List (List Words)) → Keeps self.old past lists
            → option_copied line.entry ≡ line_at (last_list lists) (dropping_number (next_of (whole entry.now)))
            → lists_before (whole entry.now) lists ≡ lists → Keeps self.new (whole entry.now ∷ past) lists) }
    {
        self.calls.note(entry)?;
        match next_of(entry) {
            Next::Dropped(actor, _) => self.drop_by(actor, line),
            _ => Ok(()),
        }
    }
}
