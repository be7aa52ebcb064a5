//! The words of the line by which each actor was last dropped from a queue (9.5.3), as it stood in force then.

ghost use Rattle.std.specs.HashMap.{get};
ghost use Rattle.std.specs.Prelude.{◌≡◌, ◌==◌, ◌∷◌, ℕ, List, [], OnOk, if◌then◌else◌, nat_eq, option_copied};
ghost use Rattle.rv_access.specs.Lines.{line_at};
ghost use Rattle.rv_access.specs.Words.{Words};
ghost use Rattle.rv_event.specs.Lent.{whole};
ghost use Rattle.rv_event.specs.Past.{next_of};
ghost use Rattle.rv_event.specs.declared.entry.Entry.{Entry};
ghost use Rattle.rv_history.specs.History.{last_list};
ghost use Rattle.rv_history.specs.Journal.{lists_before};
ghost use Rattle.rv_refused.specs.Kept.{dropping_number, words_in};
ghost use Rattle.rv_refused.specs.Refusals.{dropping_words, line_words};
ghost use Rattle.rv_export.specs.Kept.{KeepsDrops};

use crate::words::line_words;
use rv_access::Line;
use rv_event::entry::{EntryRef, Next};
use rv_event::one_entry::next_of;
use std::alloc::{AllocError, Global};
use std::collections::HashMap;

/// The words of the line by which each actor was last dropped.
pub struct Drops {
    alloc: Global,
    items: HashMap<usize, String>,
}

impl Drop for Drops {
    // A function of its own: a derived one is written out wherever one is let go, and proved there.
    fn drop(self) {
        let Drops { alloc: _, items: _ } = self;
    }
}

impl Drops {
    /// Before the first entry.
    pub fn new(alloc: Global) -> Drops
        ensures { KeepsDrops result [] [] }
    {
        Drops {
            alloc,
            items: HashMap::new(alloc),
        }
    }

    /// Those words; empty where the actor never was dropped.
    pub fn line(&self, actor: usize) -> &str
        ensures { (past : List Entry) (lists : List (List Words)) → KeepsDrops self.now past lists →
            result.now ≡ dropping_words actor past lists }
    {
        match self.items.get(&actor) {
            Some(words) => words.as_str(),
            None => "",
        }
    }

    // Notes that an actor is dropped, by this line.
    fn put(&mut self, actor: usize, line: Option<&Line>) -> Result<(), AllocError>
        ensures { OnOk result ((other : ℕ) → words_in (get nat_eq self.new.items other)
            ≡ (if actor == other then line_words (option_copied line.entry) else words_in (get nat_eq self.old.items other))) }
    {
        let words = line_words(self.alloc, line)?;
        self.items.insert(actor, words)?;
        Ok(())
    }

    /// Notes what becomes of a queue, where this is the line of the list that drops its first caller, if one does. Err where memory was
    /// refused.
    pub fn note(&mut self, entry: &EntryRef<'_>, line: Option<&Line>) -> Result<(), AllocError>
        ensures { OnOk result ((past : List Entry) (lists : List (List Words)) → KeepsDrops self.old past lists
            → option_copied line.entry ≡ line_at (last_list lists) (dropping_number (next_of (whole entry.now)))
            → lists_before (whole entry.now) lists ≡ lists → KeepsDrops self.new (whole entry.now ∷ past) lists) }
    {
        match next_of(entry) {
            Next::Dropped(actor, _) => self.put(actor, line),
            _ => Ok(()),
        }
    }
}
