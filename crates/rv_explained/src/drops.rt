//! How each actor was last dropped from a queue (9.5.3): by which entry, by which line, and since when its list was in force.

ghost use Rattle.std.specs.HashMap.{get};
ghost use Rattle.std.specs.Prelude.{◌≡◌, ◌==◌, ◌∷◌, ℕ, List, [], OnOk, if◌then◌else◌, length, nat_eq, option_copied, suc};
ghost use Rattle.rv_access.specs.Lines.{line_at};
ghost use Rattle.rv_access.specs.Words.{Words};
ghost use Rattle.rv_event.specs.Lent.{whole};
ghost use Rattle.rv_event.specs.Past.{next_of};
ghost use Rattle.rv_event.specs.declared.entry.Entry.{Entry};
ghost use Rattle.rv_history.specs.History.{last_list};
ghost use Rattle.rv_history.specs.Journal.{lists_before};
ghost use Rattle.rv_refused.specs.Kept.{dropping_number};
ghost use Rattle.rv_refused.specs.Refusals.{dropping_words, line_words};
ghost use Rattle.rv_explained.specs.Ties.{KeepsDrops, drop_entry, drop_list, entry_in, line_in, list_in, list_since};

use crate::words::line_words;
use rv_access::Line;
use rv_event::entry::{EntryRef, Next};
use rv_event::one_entry::next_of;
use std::alloc::{AllocError, Global};
use std::collections::HashMap;

/// How an actor was dropped.
pub struct DroppedBy {
    // The entry that dropped it.
    number: usize,
    // The entry that brought the list that was in force then; 0 where none was set.
    list_entry: usize,
    // The words of the line that decided.
    line: String,
}

impl Drop for DroppedBy {
    // A function of its own: a derived one is written out wherever one is let go, and proved there.
    fn drop(self) {
        let DroppedBy {
            number: _,
            list_entry: _,
            line: _,
        } = self;
    }
}

/// How each actor was last dropped.
pub struct Drops {
    alloc: Global,
    items: HashMap<usize, DroppedBy>,
}

impl Drop for Drops {
    // A function of its own: a derived one is written out wherever one is let go, and proved there.
    fn drop(self) {
        let Drops { alloc: _, items: _ } = self;
    }
}

impl Drops {
    /// Before the first entry.
    pub fn new(alloc: Global) -> Drops
        ensures { KeepsDrops result [] [] }
    {
        Drops {
            alloc,
            items: HashMap::new(alloc),
        }
    }

    /// The number of the entry that last dropped an actor; 0 where none did.
    pub fn number(&self, actor: usize) -> usize
        ensures { (past : List Entry) (lists : List (List Words)) → KeepsDrops self.now past lists → result ≡ drop_entry actor past }
    {
        match self.items.get(&actor) {
            Some(it) => it.number,
            None => 0,
        }
    }

    /// The number of the entry that brought the list that was in force then; 0 where none was set.
    pub fn list_entry(&self, actor: usize) -> usize
        ensures { (past : List Entry) (lists : List (List Words)) → KeepsDrops self.now past lists → result ≡ drop_list actor past }
    {
        match self.items.get(&actor) {
            Some(it) => it.list_entry,
            None => 0,
        }
    }

    /// The words of the line that decided; empty where the actor never was dropped.
    pub fn line(&self, actor: usize) -> &str
        ensures { (past : List Entry) (lists : List (List Words)) → KeepsDrops self.now past lists →
            result.now ≡ dropping_words actor past lists }
    {
        match self.items.get(&actor) {
            Some(it) => it.line.as_str(),
            None => "",
        }
    }

    // Notes that an entry drops an actor, by this line.
    fn put(
        &mut self,
        actor: usize,
        number: usize,
        list_entry: usize,
        line: Option<&Line>,
    ) -> Result<(), AllocError>
        ensures numbers { OnOk result ((other : ℕ) →
            entry_in (get nat_eq self.new.items other) ≡ (if actor == other then number else entry_in (get nat_eq self.old.items other))) }
        ensures lists { OnOk result ((other : ℕ) →
            list_in (get nat_eq self.new.items other) ≡ (if actor == other then list_entry else list_in (get nat_eq self.old.items other))) }
        ensures lines { OnOk result ((other : ℕ) → line_in (get nat_eq self.new.items other)
            ≡ (if actor == other then line_words (option_copied line.entry) else line_in (get nat_eq self.old.items other))) }
    {
        let line = line_words(self.alloc, line)?;
        let it = DroppedBy {
            number,
            list_entry,
            line,
        };
        self.items.insert(actor, it)?;
        Ok(())
    }

    /// Notes what becomes of a queue by the entry of this number, where this is the line of the list that drops its first caller, if one
    /// does, and the list came in force by the entry of that number.
    pub fn note(
        &mut self,
        number: usize,
        list_entry: usize,
        entry: &EntryRef<'_>,
        line: Option<&Line>,
    ) -> Result<(), AllocError>
        ensures { OnOk result ((past : List Entry) (lists : List (List Words)) → KeepsDrops self.old past lists
            → number ≡ suc (length past) → list_entry ≡ list_since past
            → option_copied line.entry ≡ line_at (last_list lists) (dropping_number (next_of (whole entry.now)))
            → lists_before (whole entry.now) lists ≡ lists → KeepsDrops self.new (whole entry.now ∷ past) lists) }
    {
        match next_of(entry) {
            Next::Dropped(actor, _) => self.put(actor, number, list_entry, line),
            _ => Ok(()),
        }
    }
}
