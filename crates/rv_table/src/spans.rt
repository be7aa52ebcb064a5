//! The spans of ticks between the ends of the windows of a list, with a row of the lines that are open in each.

ghost use Rattle.std.specs.Prelude.{◌≡◌, ◌≤◌, ◌∷◌, ℕ, Bool, List, length, IfOk, OnOk};
ghost use Rattle.std.specs.List.{All, AllZip};
ghost use Rattle.std.specs.List.Sorted.{IsNonDecreasing};
ghost use Rattle.rv_access.specs.Limits.{most_lines};
ghost use Rattle.rv_access.specs.Words.{Words};
ghost use Rattle.rv_table.specs.Edits.{CanEdit, edited};
ghost use Rattle.rv_table.specs.Rows.{IsRow, is_open_at, passes_both};
ghost use Rattle.rv_table.specs.Spans.{AreEnds, HasEnds, IsOpenRow, IsSpan, IsSpans};

use crate::edit::Edit;
use crate::edit_row::edit_row;
use crate::row::{Row, open_row, shared};
use crate::rows::copy_rows;
use rv_access::{AccessList, Line};
use std::alloc::{AllocError, Global};
use std::marker::Model;

/// The ends of the windows of a list, and a row of the lines that are open before the first, and from each on: 74 kB at
/// most.
#[derive(Drop)]
pub(crate) struct Spans {
    // In ascending order; two windows that begin or end together have two ends there.
    ends: Vec<u64>,
    // One more than there are ends.
    rows: Vec<Row>,
}

impl Model for Spans {
    ghost use Rattle.std.specs.Prelude.{◌≡◌, ◌+◌, length};
    ghost use Rattle.std.specs.List.Sorted.{IsNonDecreasing};
    ghost use Rattle.rv_table.specs.Spans.{SpanMarks};

    ghost Value = { SpanMarks };

    ghost view = { λ s. record { ends = s.ends.items; rows = s.rows.items } };

    ghost invariant = { λ s. IsNonDecreasing s.ends.items × (length s.rows.items ≡ length s.ends.items + 1) };
}

// Adds the ends of the window of a line. Err where memory was refused.
fn add_ends(ends: &mut Vec<u64>, line: &Line) -> Result<(), AllocError>
    ensures { (lines : List Words) → AreEnds ends.old.items lines
        → OnOk result (AreEnds ends.new.items lines × HasEnds ends.new.items line.now.window) }
{
    if let Some(window) = line.window() {
        ends.push(window.first())?;
        ends.push(window.end())?;
    }
    Ok(())
}

// The ends of all windows, in ascending order. Err where memory was refused.
fn ends_of(alloc: Global, list: &AccessList) -> Result<Vec<u64>, AllocError>
    ensures rising { IfOk result (λ ends. IsNonDecreasing ends.items) }
    ensures all { IfOk result (λ ends. AreEnds ends.items list.now) }
{
    let mut ends = Vec::new(alloc);
    for line in list.lines() {
        add_ends(&mut ends, line)?;
    }
    ends.sort()?;
    Ok(ends)
}

// The lines that are open before the first end, and from each end on. Err where memory was refused.
fn rows_of(alloc: Global, list: &AccessList, ends: &[u64]) -> Result<Vec<Row>, AllocError>
    requires { length list.now ≤ most_lines }
    ensures { IfOk result (λ rows. AllZip (IsOpenRow list.now) (0 ∷ ends.now) rows.items) }
{
    let mut rows = Vec::new(alloc);
    rows.push(open_row(list, 0))?;
    for end in ends {
        rows.push(open_row(list, *end))?;
    }
    Ok(rows)
}

// Makes rows of the lines that are open, of a list of so many, those of the list after an edit. The line that the edit
// brings is always open, since it has no window.
fn edit_open_rows(rows: &mut [Row], edit: Edit<'_>, lines: usize)
    requires { CanEdit edit lines }
    ensures { (list : List Words) (ticks : List ℕ) → lines ≡ length list → AllZip (IsOpenRow list) ticks rows.old
        → AllZip (IsOpenRow (edited edit.entry list)) ticks rows.new }
{
    for i in 0..rows.len() {
        edit_row(&mut rows[i], edit, lines, true);
    }
}

// How many of the ends a tick has reached: at most 11 of 1,024 are looked at.
fn span_of(ends: &[u64], tick: u64) -> usize
    requires { IsNonDecreasing ends.now }
    ensures { IsSpan ends.now tick result }
{
    ends.partition_point(|end| *end <= tick)
}

impl Spans {
    /// The spans of a list of at most 512 lines. Err where memory was refused.
    pub fn build(alloc: Global, list: &AccessList) -> Result<Spans, AllocError>
        requires { length list.now ≤ most_lines }
        ensures { IfOk result (λ spans. IsSpans list.now spans) }
    {
        let ends = ends_of(alloc, list)?;
        let rows = rows_of(alloc, list, &ends)?;
        Ok(Spans { ends, rows })
    }

    /// A copy. Err where memory was refused.
    pub fn copy(&self, alloc: Global) -> Result<Spans, AllocError>
        ensures { IfOk result (λ copy. copy ≡ self.now) }
    {
        let ends = self.ends.clone()?;
        let rows = copy_rows(alloc, &self.rows)?;
        Ok(Spans { ends, rows })
    }

    /// Makes the spans of a list of so many lines those of the list after an edit. The ends of the window of a line that it
    /// takes stay.
    pub fn edit(&mut self, edit: Edit<'_>, lines: usize)
        requires { CanEdit edit lines }
        ensures { (list : List Words) → lines ≡ length list → IsSpans list self.old → IsSpans (edited edit.entry list) self.new }
    {
        edit_open_rows(&mut self.rows, edit, lines);
    }

    // The lines that are open at a tick.
    fn row(&self, tick: u64) -> &Row
        ensures { (list : List Words) → IsSpans list self.now → IsRow (is_open_at tick) list result.now }
    {
        &self.rows[span_of(&self.ends, tick)]
    }

    /// Those of the lines of a row that are open at a tick. Where no line has a window, they are all.
    pub fn open_of(&self, ours: &Row, tick: u64) -> Row
        ensures { (list : List Words) (first : Words → Bool) → length list ≤ most_lines → IsSpans list self.now
            → IsRow first list ours.now → IsRow (passes_both first (is_open_at tick)) list result }
    {
        if self.ends.is_empty() {
            *ours
        } else {
            shared(ours, self.row(tick))
        }
    }
}
