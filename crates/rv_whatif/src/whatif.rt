//! What another list would have decided otherwise, by an observer of a journal's audit.

ghost use Rattle.std.specs.Prelude.{◌≡◌, ◌∷◌, ◌++◌, ℕ, List, IfOk, OnOk, true, map, string_bytes};
ghost use Rattle.rv_access.specs.Lines.{allows};
ghost use Rattle.rv_access.specs.Words.{Words};
ghost use Rattle.rv_event.specs.Lent.{whole};
ghost use Rattle.rv_event.specs.declared.entry.Entry.TheVariants.{Asked};
ghost use Rattle.rv_history.specs.History.{History};
ghost use Rattle.rv_history.specs.Legal.{empty};
ghost use Rattle.rv_history.specs.declared.limits.Limits.{Limits};
ghost use Rattle.rv_refused.specs.Filters.{FilterText};
ghost use Rattle.rv_refused.specs.Looking.{WillHold};
ghost use Rattle.rv_asked.specs.Asked.{line_by};
ghost use Rattle.rv_asked.specs.Holding.{Keeps};
ghost use Rattle.rv_tallied.specs.Tallies.{counted, kept_for, with_words};
ghost use Rattle.rv_whatif.specs.Changes.{call_text, head, line_of, whatif_text};
ghost use Rattle.rv_whatif.specs.Following.{Follows, Judges, JudgesCall, Looks};

use crate::lines::{allows_at, allows_in_force, call_words, decisions_text, is_one_of, put_line};
use rv_access::AccessList;
use rv_asked::asking::{asked_at, asking_text, takes};
use rv_asked::deciding::{decided_by, decided_in_force};
use rv_asked::holding::Holding;
use rv_audit::observer::Observer;
use rv_event::entry::{Answer, Body, EntryRef, Recorded, Request};
use rv_host::host::Host;
use rv_reading::deed::Deed;
use rv_refused::Filter;
use rv_shape::shape::UnitShape;
use rv_tallied::rows::put_rows;
use rv_tallied::tallies::Tallies;
use rv_tallied::words::put_words;
use std::alloc::{AllocError, Global};

// What is said before all else.
const HEAD: &str =
    "Nothing is carried on from a changed decision: each entry is judged where it stands.\n";

/// Gathers what another list would have decided otherwise, of what a filter takes, while a journal is audited.
pub struct WhatIf<'f> {
    alloc: Global,
    filter: Filter<'f>,
    list: AccessList,
    holding: Holding,
    text: String,
    calls: Vec<String>,
    tallies: Tallies,
}

impl<'f> Drop for WhatIf<'f> {
    // A function of its own: a derived one is written out wherever one is let go, and proved there.
    fn drop(self) {
        let WhatIf {
            alloc: _,
            filter: _,
            list: _,
            holding: _,
            text: _,
            calls: _,
            tallies: _,
        } = self;
    }
}

impl<'f> WhatIf<'f> {
    /// Before the first line of a journal.
    pub fn new(alloc: Global, filter: Filter<'f>, list: AccessList) -> WhatIf<'f>
        ensures filter { result.filter ≡ filter.entry }
        ensures list { result.list ≡ list }
        ensures begins { (limits : Limits) → Follows result.filter result.list result (empty limits) }
    {
        WhatIf {
            alloc,
            filter,
            list,
            holding: Holding::new(alloc),
            text: String::new(alloc),
            calls: Vec::new(alloc),
            tallies: Tallies::new(alloc),
        }
    }

    /// That nothing is carried on, the changed decisions, and how many there are of each call. Err where memory was refused.
    pub fn into_text(self) -> Result<String, AllocError>
        ensures { (filter : FilterText) (list : List Words) (h : History) → Follows filter list self.entry h →
            IfOk result (λ text. string_bytes text ≡ whatif_text filter list h) }
    {
        let mut text = String::from_str(self.alloc, HEAD)?;
        text.push_str(self.text.as_str())?;
        put_rows(&mut text, "changed", &self.tallies, self.calls.as_slice())?;
        Ok(text)
    }

    // Puts the line of a changed decision about a call, at the entry of this number.
    fn put_change(
        &mut self,
        host: &Host,
        number: usize,
        entry: &EntryRef<'_>,
        call: &Body,
    ) -> Result<(), AllocError>
        ensures text { OnOk result (Keeps self.old.holding host.now.shapes host.now.past →
            string_bytes self.new.text ≡ string_bytes self.old.text ++ line_of self.old.list host.now number (whole entry.now) call.now) }
        ensures rest { self.new ≡ record self.old { text = self.new.text } }
    {
        let would = decided_by(host, &self.holding, &self.list, call);
        let was = decided_in_force(host, &self.holding, call);
        let decisions = decisions_text(self.alloc, host, &self.list, would, was)?;
        let catalogue = host.catalogue();
        put_line(
            &mut self.text,
            number,
            host.clock(),
            &catalogue.who(call.actor),
            asking_text(entry),
            &catalogue.callee(call.object, call.operation),
            decisions.as_str(),
        )
    }

    // Whose call it is, for the list, and of what.
    fn words_of(&self, host: &Host, call: &Body) -> Result<String, AllocError>
        ensures { IfOk result (λ words. Keeps self.now.holding host.now.shapes host.now.past → string_bytes words ≡ call_text host.now call.now) }
    {
        let catalogue = host.catalogue();
        call_words(
            self.alloc,
            self.holding.subject(catalogue, call.actor),
            &catalogue.callee(call.object, call.operation),
        )
    }

    // Notes whose call it is, and of what, where that isn't noted yet.
    fn note_call(&mut self, host: &Host, call: &Body) -> Result<(), AllocError>
        ensures calls { OnOk result (Keeps self.old.holding host.now.shapes host.now.past →
            map string_bytes self.new.calls.items ≡ with_words (map string_bytes self.old.calls.items) (call_text host.now call.now)) }
        ensures rest { self.new ≡ record self.old { calls = self.new.calls } }
    {
        let words = self.words_of(host, call)?;
        put_words(&mut self.calls, words)
    }

    // Counts a changed decision about a call.
    fn count(&mut self, host: &Host, call: &Body) -> Result<(), AllocError>
        ensures tallies { OnOk result (Keeps self.old.holding host.now.shapes host.now.past → (words : List ℕ) → kept_for self.new.tallies words
            ≡ counted (call_text host.now call.now) (allows (line_by self.old.list host.now call.now)) words (kept_for self.old.tallies words)) }
        ensures rest { self.new ≡ record self.old { tallies = self.new.tallies } }
    {
        let words = self.words_of(host, call)?;
        let would = decided_by(host, &self.holding, &self.list, call);
        self.tallies.count(words, allows_at(&self.list, would))
    }

    // Tells and counts a changed decision about a call, at the entry of this number.
    fn change(
        &mut self,
        host: &Host,
        number: usize,
        entry: &EntryRef<'_>,
        call: &Body,
    ) -> Result<(), AllocError>
        ensures { OnOk result (Keeps self.old.holding host.now.shapes host.now.past →
            Judges self.old self.new host.now number (whole entry.now) call.now true) }
    {
        self.put_change(host, number, entry, call)?;
        self.note_call(host, call)?;
        self.count(host, call)
    }

    // Judges a call anew, if one is asked about at the entry of this number and the filter takes it.
    fn judge(
        &mut self,
        host: &Host,
        number: usize,
        entry: &EntryRef<'_>,
        asked: Option<Body>,
    ) -> Result<(), AllocError>
        ensures { OnOk result (JudgesCall self.old self.new host.now number (whole entry.now) asked) }
    {
        let Some(call) = asked else {
            return Ok(());
        };
        if !takes(self.alloc, &self.filter, host, number, &call)? {
            return Ok(());
        }
        let was = decided_in_force(host, &self.holding, &call);
        let would = decided_by(host, &self.holding, &self.list, &call);
        let is_granted = allows_in_force(host, was);
        if !is_one_of(is_granted, allows_at(&self.list, would)) {
            return Ok(());
        }
        self.change(host, number, entry, &call)
    }

    // Looks at a request with the answer that is told, the entry of this number.
    fn look(
        &mut self,
        host: &Host,
        number: usize,
        actor: usize,
        request: &Request,
        word: Recorded,
    ) -> Result<(), AllocError>
        ensures { OnOk result (Looks self.old self.new host.now number (Asked actor request.now word)) }
    {
        let catalogue = host.catalogue();
        let entry = EntryRef::Asked(actor, request, word);
        let asked = asked_at(catalogue, &self.holding, &entry);
        self.judge(host, number, &entry, asked)?;
        self.holding.note(catalogue, &entry)
    }
}

impl<'f> Observer for WhatIf<'f> {
    ghost follows = { λ begun it units h. Follows begun.filter begun.list it h };

    ghost awaits = { λ begun it units h told. WillHold (Follows begun.filter begun.list it) units h told };

    fn before(
        &mut self,
        _units: &[UnitShape],
        host: &Host,
        number: usize,
        deed: &Deed<'_>,
    ) -> Result<(), AllocError> {
        match *deed {
            Deed::Asks(actor, request, word) => self.look(host, number, actor, &request, word),
            Deed::Loads(_, _, _) => {
                host.replays();
                Ok(())
            }
            Deed::Lists(_, _, _) => Ok(()),
        }
    }

    // Each entry was taken before it was judged.
    fn after(
        &mut self,
        _units: &[UnitShape],
        _host: &Host,
        _deed: &Deed<'_>,
        _answer: &Answer,
    ) -> Result<(), AllocError> {
        Ok(())
    }
}
