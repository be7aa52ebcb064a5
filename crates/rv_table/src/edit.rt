//! A change of one line of a list.

ghost use Rattle.std.specs.Prelude.{◌≡◌, ◌<◌, ◌+◌, ◌^◌};
ghost use Rattle.std.specs.Option.{option_copied};
ghost use Rattle.rv_access.specs.Lines.{fits as fits_word};
ghost use Rattle.rv_text.specs.Names.{dotted};
ghost use Rattle.rv_table.specs.Edits.{Brings, brought, lines_after};
ghost use Rattle.rv_table.specs.Rows.{is_allowing, of_caller};

use rv_access::{Line, fits, fits_object};

/// A change of one line of a list, whose lines are numbered from 1. The line that it brings is lent.
#[derive(Clone, Copy, Drop)]
pub enum Edit<'a> {
    /// A line more, at the end.
    Append(&'a Line),
    /// A line less: that of this number.
    Remove(usize),
    /// Another line in the place of that of this number.
    Replace(usize, &'a Line),
}

impl<'a> Edit<'a> {
    // The line that it brings, if it brings one.
    fn line(self) -> Option<&'a Line>
        ensures { option_copied result ≡ brought self.entry }
    {
        match self {
            Edit::Append(line) => Some(line),
            Edit::Remove(_) => None,
            Edit::Replace(_, line) => Some(line),
        }
    }

    /// Whether it brings a line that is of a caller.
    pub(crate) fn is_of_caller(self, caller: &str) -> bool
        ensures { Brings self.entry (of_caller caller.now) result }
    {
        match self.line() {
            Some(line) => fits(line.unit(), caller),
            None => false,
        }
    }

    /// Whether it brings a line that is of the object `unit.object`.
    pub(crate) fn is_of_object(self, unit: &str, object: &str) -> bool
        ensures { Brings self.entry (λ line. fits_word line.object (dotted unit.now object.now)) result }
    {
        match self.line() {
            Some(line) => fits_object(line.object(), unit, object),
            None => false,
        }
    }

    /// Whether it brings a line that is of an operation of this name.
    pub(crate) fn is_of_operation(self, operation: &str) -> bool
        ensures { Brings self.entry (λ line. fits_word line.operation operation.now) result }
    {
        match self.line() {
            Some(line) => fits(line.operation(), operation),
            None => false,
        }
    }

    /// Whether it brings a line that allows.
    pub(crate) fn allows(self) -> bool
        ensures { Brings self.entry is_allowing result }
    {
        match self.line() {
            Some(line) => line.allows(),
            None => false,
        }
    }

    /// How many lines there are after it, of so many.
    pub(crate) fn lines_after(self, lines: usize) -> usize
        requires { lines < 2 ^ 63 }
        ensures { result ≡ lines_after self.entry lines }
    {
        match self {
            Edit::Append(_) => lines + 1,
            Edit::Remove(_) => lines.saturating_sub(1),
            Edit::Replace(_, _) => lines,
        }
    }
}
