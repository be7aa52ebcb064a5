//! How many entries each actor has added.

ghost use Rattle.std.specs.Prelude.{◌≡◌, ◌+◌, ◌<◌, ◌≤◌, ◌^◌, ◌++◌, ◌∷◌, [], List, length, min, slice_index_or};
ghost use Rattle.rv_event.specs.declared.entry.Entry.{Entry};
ghost use Rattle.rv_tally.specs.Tallying.{IsTally, Notes, added, adder, entries_of, is_task_of, most_actors, task_count};

use rv_event::entry::Entry;
use rv_host::pages::Page;
use rv_shape::actor::FIRST_TASK;
use rv_shape::catalogue::{Catalogue, MOST_TASKS};
use std::marker::Model;

// How many actors there may be: the operator, ten lines, and the tasks.
const ACTORS: usize = FIRST_TASK + MOST_TASKS;

/// How many entries each actor has added, of those that were counted. Counting needs no memory.
#[derive(Drop)]
pub struct Tally {
    counts: [u64; ACTORS],
}

impl Model for Tally {
    ghost use Rattle.std.specs.Prelude.{ℕ, List};

    ghost Value = { List ℕ };

    ghost view = { λ t. t.counts };
}

// Who added an entry: loads and list changes are the operator's.
fn adder(entry: &Entry) -> usize
    ensures { result ≡ adder entry.now }
{
    match entry {
        Entry::Asked(actor, _, _) => *actor,
        Entry::Load | Entry::ListChange => 0,
    }
}

// Whether an actor is a task of a unit, by the unit's name as declared.
fn is_task_of(catalogue: &Catalogue, unit: &str, actor: usize) -> bool
    ensures { result ≡ is_task_of catalogue.now unit.now actor }
{
    match catalogue.task(actor) {
        Some((shape, _)) => shape.name() == unit,
        None => false,
    }
}

impl Default for Tally {
    fn default() -> Tally {
        Tally::new()
    }
}

impl Tally {
    /// Nothing is counted yet.
    pub fn new() -> Tally
        ensures { IsTally [] result }
    {
        Tally {
            counts: [0; ACTORS],
        }
    }

    // One entry more of an actor.
    #[tactic(auto, using(crate::proofs::Tallies::notes_none, crate::proofs::Tallies::notes_one))]
    fn note(&mut self, actor: usize)
        ensures { Notes self.old actor self.new }
    {
        if actor >= ACTORS {
            return;
        }
        self.counts[actor] = self.counts[actor].saturating_add(1);
    }

    /// Counts the entries of a page, which follow those that were counted.
    pub fn count(&mut self, page: &Page)
        ensures { (before : List Entry) → length before + length page.now < 2 ^ 64
            → IsTally before self.old → IsTally (before ++ entries_of page.now) self.new }
    {
        for item in page.items() {
            self.note(adder(&item.entry()));
        }
    }

    // How many entries an actor has added, if it is a task of the unit.
    fn of_task(&self, catalogue: &Catalogue, unit: &str, actor: usize) -> u64
        requires { actor < most_actors }
        ensures { (entries : List Entry) → IsTally entries self.now → result ≡ task_count catalogue.now unit.now actor entries }
    {
        if is_task_of(catalogue, unit, actor) {
            self.counts[actor]
        } else {
            0
        }
    }

    /// How many of the entries that were counted the tasks of a unit have added, by the unit's name as declared.
    pub fn of_unit(&self, catalogue: &Catalogue, unit: &str) -> u64
        ensures { (entries : List Entry) → length entries < 2 ^ 64
            → IsTally entries self.now → result ≡ added catalogue.now unit.now entries }
    {
        let tasks = catalogue.tasks();
        let mut sum = 0u64;
        for actor in FIRST_TASK..FIRST_TASK + tasks {
            sum = sum.saturating_add(self.of_task(catalogue, unit, actor));
        }
        sum
    }
}
