//! What the list in force decides of a call, looked up in a table of it over the units that are loaded.

ghost use Rattle.std.specs.Prelude.{◌≡◌, IfOk, IfSome, OnOk};
ghost use Rattle.rv_shape.specs.Catalogue.{place, who};
ghost use Rattle.rv_event.specs.Past.{innermost};
ghost use Rattle.rv_history.specs.History.{History, force};
ghost use Rattle.rv_history.specs.Subject.{home, subject, unit_at};
ghost use Rattle.rv_host.specs.Numbered.{IsNumber};
ghost use Rattle.rv_table.specs.Tables.{IsTable};
ghost use Rattle.rv_asked.specs.Asked.{decided_by};
ghost use Rattle.rv_asked.specs.Holding.{Keeps};
ghost use Rattle.rv_asked.specs.Tabled.{IsTabled};

use crate::deciding::decided_in_force;
use crate::holding::Holding;
use rv_access::MOST_LINES;
use rv_event::entry::Body;
use rv_host::host::Host;
use rv_shape::actor::FIRST_TASK;
use rv_shape::catalogue::Catalogue;
use rv_table::Table;
use std::alloc::{AllocError, Global};

/// A table of the list in force, where there is one of at most 512 lines.
pub struct Tabled {
    alloc: Global,
    table: Option<Table>,
}

impl Drop for Tabled {
    // A function of its own: a derived one is written out wherever one is let go, and proved there.
    fn drop(self) {
        let Tabled { alloc: _, table: _ } = self;
    }
}

// The number of the home of an actor: of its unit, or 0 for `Interrupts`; `None` where it has none.
#[tactic(auto, using(rv_host::proofs::Tabled::operator_number, rv_host::proofs::Tabled::line_number, rv_host::proofs::Tabled::task_number))]
fn home(catalogue: &Catalogue, actor: usize) -> Option<usize>
    ensures { IsNumber catalogue.now (home (who catalogue.now actor)) result }
{
    if actor == 0 {
        return None;
    }
    if actor < FIRST_TASK {
        return Some(0);
    }
    catalogue.unit_of_task(actor)
}

// The number of the unit of an object.
#[tactic(auto, using(rv_host::proofs::Tabled::object_number))]
fn unit_at(catalogue: &Catalogue, object: usize) -> Option<usize>
    ensures { IsNumber catalogue.now (unit_at (place catalogue.now object)) result }
{
    catalogue.unit_of_object(object)
}

// The number of the subject of a call by an actor: of the unit of the innermost object that it holds, else of its home.
fn subject(holding: &Holding, catalogue: &Catalogue, actor: usize) -> Option<usize>
    ensures { (h : History) → catalogue.now ≡ h.shapes → Keeps holding.now h.shapes h.past → IsNumber h.shapes (subject h actor) result }
{
    match holding.innermost(actor) {
        None => home(catalogue, actor),
        Some(body) => unit_at(catalogue, body.object),
    }
}

// The number of the line that decides a call now, by the table of the list in force.
fn looked_up(table: &Table, host: &Host, holding: &Holding, call: &Body) -> usize
    ensures { IsTable (force host.now) host.now.shapes table.now → Keeps holding.now host.now.shapes host.now.past
        → result ≡ decided_by (force host.now) host.now call.now }
{
    let tick = host.clock();
    match subject(holding, host.catalogue(), call.actor) {
        Some(unit) => table.look(unit, call.object, call.operation, tick).1,
        None => table.look_nameless(call.object, call.operation, tick).1,
    }
}

impl Tabled {
    /// No table.
    pub fn new(alloc: Global) -> Tabled
        ensures { (h : History) → IsTabled result h }
    {
        Tabled { alloc, table: None }
    }

    // A table of the host's list. Err where memory was refused.
    fn table_of(&self, host: &Host) -> Result<Option<Table>, AllocError>
        ensures { IfOk result (λ table. IfSome table (IsTable (force host.now) host.now.shapes)) }
    {
        let Some(list) = host.list() else {
            return Ok(None);
        };
        if list.len() > MOST_LINES {
            return Ok(None);
        }
        let table = Table::build(self.alloc, list, host.catalogue())?;
        Ok(Some(table))
    }

    /// Another list is in force, or more is loaded. Err where memory was refused.
    pub fn renew(&mut self, host: &Host) -> Result<(), AllocError>
        ensures { OnOk result (IsTabled self.new host.now) }
    {
        self.table = self.table_of(host)?;
        Ok(())
    }

    /// The number of the line of the list in force that decides a call now, by what is kept of the host's entries; 0 where none does.
    pub fn decided(&self, host: &Host, holding: &Holding, call: &Body) -> usize
        ensures { IsTabled self.now host.now → Keeps holding.now host.now.shapes host.now.past
            → result ≡ decided_by (force host.now) host.now call.now }
    {
        match &self.table {
            Some(table) => looked_up(table, host, holding, call),
            None => decided_in_force(host, holding, call),
        }
    }
}
