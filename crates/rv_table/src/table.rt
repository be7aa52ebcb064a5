//! The table of a list over the units that are loaded.

ghost use Rattle.std.specs.Prelude.{◌≡◌, ◌≤◌, ◌<◌, ◌++◌, ◌∷◌, [], ℕ, Some, List, length, IfOk, slice_get};
ghost use Rattle.std.specs.Option.{option_copied};
ghost use Rattle.rv_access.specs.Limits.{most_lines};
ghost use Rattle.rv_access.specs.Words.{Words};
ghost use Rattle.rv_shape.specs.Catalogue.{target};
ghost use Rattle.rv_shape.specs.Shape.{Shape};
ghost use Rattle.rv_table.specs.Edits.{CanEdit, edited};
ghost use Rattle.rv_table.specs.Tables.{IsCaller, IsTable, allowed, decided, decided_at, granted, granted_at, row_of};

use crate::edit::Edit;
use crate::edit_row::edit_row;
use crate::row::{Row, allowing_row, caller_row, deciding, is_marked};
use crate::rows::{
    ObjectRows, caller_rows, callers_with, edit_callers, edit_objects, object_rows, objects_with,
};
use crate::spans::Spans;
use rv_access::{AccessList, MOST_LINES};
use rv_shape::catalogue::Catalogue;
use rv_shape::shape::UnitShape;
use std::alloc::{AllocError, Global};
use std::marker::Model;

/// An access list compiled over the units that are loaded: a row of marks for each unit that may call, for each
/// operation of each object, and for each span of ticks between two ends of its windows. It takes 64 bytes a row: 345 kB
/// at most. It answers for every tick, and keeps no place among them.
///
/// Contracts see its marks, and `IsTable` says of which list and which units they are.
pub struct Table {
    callers: Vec<Row>,
    objects: Vec<ObjectRows>,
    nameless: Row,
    allowing: Row,
    spans: Spans,
    lines: usize,
}

impl Drop for Table {
    // A function of its own: a derived one is written out wherever a table is let go, and proved there.
    fn drop(self) {
        let Table {
            callers: _,
            objects: _,
            nameless: _,
            allowing: _,
            spans: _,
            lines: _,
        } = self;
    }
}

impl Model for Table {
    ghost use Rattle.rv_table.specs.Tables.{Marks};

    ghost Value = { Marks };

    ghost view = { λ t. record { callers = t.callers.items; objects = t.objects.items; nameless = t.nameless; allowing = t.allowing; spans = t.spans; lines = t.lines } };
}

impl Table {
    /// The table of a list of at most 512 lines. Err where memory was refused.
    pub fn build(
        alloc: Global,
        list: &AccessList,
        catalogue: &Catalogue,
    ) -> Result<Table, AllocError>
        requires { length list.now ≤ most_lines }
        ensures { IfOk result (λ t. IsTable list.now catalogue.now t) }
    {
        let shapes = catalogue.shapes();
        Ok(Table {
            callers: caller_rows(alloc, list, shapes)?,
            objects: object_rows(alloc, list, shapes)?,
            nameless: caller_row(list, ""),
            allowing: allowing_row(list),
            spans: Spans::build(alloc, list)?,
            lines: list.len(),
        })
    }

    /// The table of the same list over one more unit, the last. Err where memory was refused.
    pub fn with_unit(
        &self,
        alloc: Global,
        list: &AccessList,
        shape: &UnitShape,
    ) -> Result<Table, AllocError>
        requires { length list.now ≤ most_lines }
        ensures { (shapes : List Shape) → IsTable list.now shapes self.now
            → IfOk result (λ t. IsTable list.now (shapes ++ shape.now ∷ []) t) }
    {
        Ok(Table {
            callers: callers_with(alloc, &self.callers, list, shape)?,
            objects: objects_with(alloc, &self.objects, list, shape)?,
            nameless: self.nameless,
            allowing: self.allowing,
            spans: self.spans.copy(alloc)?,
            lines: self.lines,
        })
    }

    /// Makes it the table of the list after an edit of one of its lines: a bit a row. There must be a line of the number that
    /// the edit names, or room for one more, and the line that it brings must have no window. The catalogue must be that of
    /// the table.
    pub fn edit(&mut self, edit: Edit<'_>, catalogue: &Catalogue)
        requires { CanEdit edit self.old.lines }
        ensures { (list : List Words) → IsTable list catalogue.now self.old → IsTable (edited edit.entry list) catalogue.now self.new }
    {
        let lines = self.lines;
        edit_callers(&mut self.callers, edit, lines, catalogue.shapes());
        edit_objects(&mut self.objects, edit, lines, catalogue);
        edit_row(&mut self.nameless, edit, lines, edit.is_of_caller(""));
        edit_row(&mut self.allowing, edit, lines, edit.allows());
        self.spans.edit(edit, lines);
        self.lines = edit.lines_after(lines);
    }

    // The row of a unit, or of `Interrupts`.
    fn caller(&self, unit: usize) -> Option<&Row>
        ensures { option_copied result ≡ slice_get self.now.callers unit }
    {
        self.callers.get(unit)
    }

    // The row of an operation, by the numbers of its object and its own, each from 1.
    fn site(&self, object: usize, operation: usize) -> Option<&Row>
        ensures { option_copied result ≡ row_of self.now.objects object operation }
    {
        if object < 1 {
            return None;
        }
        self.objects.get(object - 1)?.row(operation)
    }

    /// Whether the list grants a unit, by its number from 1 (0 being `Interrupts`), a call of an operation at a tick, by
    /// the numbers of its object and its own, each from 1; and the number of the line that decides, the last that matches
    /// at that tick. Where none does, or one of them is not there, the call is denied with line 0.
    pub fn look(&self, unit: usize, object: usize, operation: usize, tick: u64) -> (bool, usize)
        ensures line { (list : List Words) (shapes : List Shape) → IsTable list shapes self.now
            → result.1 ≡ decided list shapes unit object operation tick }
        ensures granted { (list : List Words) (shapes : List Shape) → IsTable list shapes self.now
            → result.0 ≡ granted list shapes unit object operation tick }
    {
        let Some(ours) = self.caller(unit) else {
            return (false, 0);
        };
        self.look_in(ours, object, operation, tick)
    }

    /// The same of a call by one that has no home, which `*` alone fits.
    pub fn look_nameless(&self, object: usize, operation: usize, tick: u64) -> (bool, usize)
        ensures line { (list : List Words) (shapes : List Shape) → IsTable list shapes self.now
            → result.1 ≡ decided_at list (Some []) (target shapes object operation) tick }
        ensures granted { (list : List Words) (shapes : List Shape) → IsTable list shapes self.now
            → result.0 ≡ granted_at list (Some []) (target shapes object operation) tick }
    {
        self.look_in(&self.nameless, object, operation, tick)
    }

    // What is decided of a call by the caller of a row at a tick.
    fn look_in(&self, ours: &Row, object: usize, operation: usize, tick: u64) -> (bool, usize)
        ensures line { (list : List Words) (shapes : List Shape) (caller : List ℕ) → IsTable list shapes self.now
            → IsCaller list caller ours.now → result.1 ≡ decided_at list (Some caller) (target shapes object operation) tick }
        ensures granted { (list : List Words) (shapes : List Shape) (caller : List ℕ) → IsTable list shapes self.now
            → IsCaller list caller ours.now → result.0 ≡ granted_at list (Some caller) (target shapes object operation) tick }
    {
        let Some(theirs) = self.site(object, operation) else {
            return (false, 0);
        };
        let open = self.spans.open_of(ours, tick);
        let number = deciding(&open, theirs, self.lines);
        (self.allows(number), number)
    }

    // Whether the line of a number allows; 0 is of none.
    fn allows(&self, number: usize) -> bool
        ensures { (list : List Words) (shapes : List Shape) → IsTable list shapes self.now → number ≤ length list
            → result ≡ allowed list number }
    {
        let place = self.lines.saturating_sub(number);
        number > 0 && place < MOST_LINES && is_marked(&self.allowing, place)
    }
}
