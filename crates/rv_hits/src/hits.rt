//! How often each line decided, by an observer of a journal's audit.

ghost use Rattle.std.specs.Prelude.{◌≡◌, List, None, Option, IfOk, OnOk, string_bytes};
ghost use Rattle.rv_event.specs.declared.entry.Entry.TheVariants.{Asked};
ghost use Rattle.rv_history.specs.History.{History, force};
ghost use Rattle.rv_history.specs.Legal.{empty};
ghost use Rattle.rv_history.specs.declared.limits.Limits.{Limits};
ghost use Rattle.rv_access.specs.Lines.{line_at};
ghost use Rattle.rv_access.specs.Words.{Words};
ghost use Rattle.rv_refused.specs.Filters.{FilterText};
ghost use Rattle.rv_hits.specs.Counts.{AreOf};
ghost use Rattle.rv_hits.specs.Following.{Awaits, CountsCall, CountsLine, Follows, Joins, Looks, Renews, Sees, SeesLines};
ghost use Rattle.rv_hits.specs.Hits.{hits_text};

use crate::counts::{Counted, count_at, counts_of, join};
use crate::lines::put_lines;
use rv_access::Line;
use rv_asked::asking::{asked_at, takes};
use rv_asked::holding::Holding;
use rv_asked::tabled::Tabled;
use rv_audit::observer::Observer;
use rv_event::entry::{Answer, Body, EntryRef, Recorded, Request};
use rv_host::host::Host;
use rv_reading::deed::Deed;
use rv_refused::Filter;
use rv_shape::shape::UnitShape;
use rv_tallied::rows::{put_row, put_rows};
use rv_tallied::tallies::{Tallies, Tally, one_more};
use std::alloc::{AllocError, Global};

/// Counts how often each line of the lists of a journal decided, of what a filter takes, while the journal is audited.
pub struct Hits<'f> {
    alloc: Global,
    filter: Filter<'f>,
    holding: Holding,
    tabled: Tabled,
    words: Vec<String>,
    // Of the list in force, line by line; the tallies are of the lists before it.
    counts: Vec<Counted>,
    tallies: Tallies,
    unmatched: u64,
}

impl<'f> Drop for Hits<'f> {
    // A function of its own: a derived one is written out wherever one is let go, and proved there.
    fn drop(self) {
        let Hits {
            alloc: _,
            filter: _,
            holding: _,
            tabled: _,
            words: _,
            counts: _,
            tallies: _,
            unmatched: _,
        } = self;
    }
}

impl<'f> Hits<'f> {
    /// Before the first line of a journal.
    pub fn new(alloc: Global, filter: Filter<'f>) -> Hits<'f>
        ensures filter { result.filter ≡ filter.entry }
        ensures begins { (limits : Limits) → Follows result.filter result (empty limits) }
    {
        Hits {
            alloc,
            filter,
            holding: Holding::new(alloc),
            tabled: Tabled::new(alloc),
            words: Vec::new(alloc),
            counts: Vec::new(alloc),
            tallies: Tallies::new(alloc),
            unmatched: 0,
        }
    }

    /// The rows. Err where memory was refused.
    pub fn into_text(mut self) -> Result<String, AllocError>
        ensures { (filter : FilterText) (h : History) → Follows filter self.entry h → IfOk result (λ text. string_bytes text ≡ hits_text filter h) }
    {
        self.join()?;
        let mut text = String::new(self.alloc);
        put_rows(&mut text, "decided", &self.tallies, self.words.as_slice())?;
        let unmatched = Tally {
            times: self.unmatched,
            granted: 0,
        };
        put_row(&mut text, "decided", "no line", unmatched)?;
        Ok(text)
    }

    // Counts that no line decided.
    #[tactic(auto, using(crate::proofs::Counting::none_decides))]
    fn count_none(&mut self)
        ensures { (list : List Words) (line : Option Words) → line ≡ None → AreOf self.old.counts.items list
            → CountsLine self.old self.new list line }
    {
        self.unmatched = one_more(self.unmatched);
    }

    // Counts that the line of a number of the list in force decided; none has the number 0.
    #[tactic(auto, using(crate::proofs::Counting::none_behind, crate::proofs::Counting::line_decides))]
    fn count_line(&mut self, number: usize)
        ensures { (list : List Words) → AreOf self.old.counts.items list → CountsLine self.old self.new list (line_at list number) }
    {
        if number == 0 {
            self.count_none();
            return;
        }
        if self.counts.len() < number {
            self.count_none();
            return;
        }
        count_at(self.counts.as_mut_slice(), number - 1);
    }

    // Counts what is asked about a call at the entry of this number, if it is asked and the filter takes it.
    #[tactic(auto, using(crate::proofs::Counting::uncounted, crate::proofs::Counting::untaken, crate::proofs::Counting::counted_line))]
    fn count(&mut self, host: &Host, number: usize, asked: Option<Body>) -> Result<(), AllocError>
        ensures { OnOk result (CountsCall self.old self.new host.now number asked) }
    {
        let Some(call) = asked else {
            return Ok(());
        };
        if !takes(self.alloc, &self.filter, host, number, &call)? {
            return Ok(());
        }
        let line = self.tabled.decided(host, &self.holding, &call);
        self.count_line(line);
        Ok(())
    }

    // Looks at a request with the answer that is told, the entry of this number.
    fn look(
        &mut self,
        host: &Host,
        number: usize,
        actor: usize,
        request: &Request,
        word: Recorded,
    ) -> Result<(), AllocError>
        ensures { OnOk result (Looks self.old self.new host.now number (Asked actor request.now word)) }
    {
        let catalogue = host.catalogue();
        let entry = EntryRef::Asked(actor, request, word);
        let asked = asked_at(catalogue, &self.holding, &entry);
        self.count(host, number, asked)?;
        self.holding.note(catalogue, &entry)
    }

    // Adds what the lines of the list in force decided to the tallies.
    fn join(&mut self) -> Result<(), AllocError>
        ensures { OnOk result (Joins self.old self.new) }
    {
        join(self.alloc, &mut self.tallies, self.counts.as_slice())
    }

    // A list of these lines comes in force.
    #[tactic(auto, using(crate::proofs::Looking::lines_seen))]
    fn see_lines(&mut self, lines: &[Line]) -> Result<(), AllocError>
        ensures { OnOk result (SeesLines self.old self.new lines.now) }
    {
        self.join()?;
        self.counts = counts_of(self.alloc, lines)?;
        put_lines(self.alloc, &mut self.words, lines)
    }

    // The list of the host does.
    fn see_list(&mut self, host: &Host) -> Result<(), AllocError>
        ensures { OnOk result (SeesLines self.old self.new (force host.now)) }
    {
        match host.list() {
            Some(list) => self.see_lines(list.lines()),
            None => self.see_lines(&[]),
        }
    }

    // What decides is looked up in the host's list over its units from now on.
    fn renew(&mut self, host: &Host) -> Result<(), AllocError>
        ensures { OnOk result (Renews self.old self.new host.now) }
    {
        self.tabled.renew(host)
    }

    // A list has come in force.
    #[tactic(auto, using(crate::proofs::Looking::list_seen))]
    fn see(&mut self, host: &Host) -> Result<(), AllocError>
        ensures { OnOk result (Sees self.old self.new host.now) }
    {
        self.see_list(host)?;
        self.renew(host)
    }
}

impl<'f> Observer for Hits<'f> {
    ghost follows = { λ begun it units h. Follows begun.filter it h };

    ghost awaits = { λ begun it units h told. Awaits begun.filter it units h told };

    fn before(
        &mut self,
        _units: &[UnitShape],
        host: &Host,
        number: usize,
        deed: &Deed<'_>,
    ) -> Result<(), AllocError> {
        match *deed {
            Deed::Asks(actor, request, word) => self.look(host, number, actor, &request, word),
            Deed::Loads(_, _, _) => {
                host.replays();
                Ok(())
            }
            Deed::Lists(_, _, _) => Ok(()),
        }
    }

    fn after(
        &mut self,
        _units: &[UnitShape],
        host: &Host,
        deed: &Deed<'_>,
        _answer: &Answer,
    ) -> Result<(), AllocError> {
        match *deed {
            Deed::Asks(_, _, _) => Ok(()),
            Deed::Loads(_, _, _) => self.renew(host),
            Deed::Lists(_, _, _) => self.see(host),
        }
    }
}
