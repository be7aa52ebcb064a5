//! A list of lines.

ghost use Rattle.std.specs.Prelude.{◌≡◌, ◌<◌, ◌≤◌, [], ◌∷◌, ◌++◌, length, IfOk, OnOk, OnErr, option_copied, string_bytes};
ghost use Rattle.rv_access.specs.Changes.{removed, replaced};
ghost use Rattle.std.specs.List.{All};
ghost use Rattle.rv_access.specs.Lines.{line_at};
ghost use Rattle.rv_access.specs.Spelled.{IsSpelled};
ghost use Rattle.rv_access.specs.Text.{list_text};

use crate::line::Line;
use std::alloc::{AllocError, Global};
use std::marker::Model;

/// An access list: its lines in order, numbered from 1.
#[derive(Clone, Drop)]
pub struct AccessList {
    lines: Vec<Line>,
}

impl Model for AccessList {
    ghost use Rattle.rv_access.specs.Words.{Words};
    ghost use Rattle.rv_access.specs.Spelled.{IsSpelled};
    ghost use Rattle.std.specs.Prelude.{List};
    ghost use Rattle.std.specs.List.{All};

    ghost Value = { List Words };

    ghost view = { λ l. l.lines.items };

    ghost invariant = { λ l. All IsSpelled l.lines.items };
}

impl AccessList {
    /// The empty list.
    pub fn new(alloc: Global) -> AccessList
        ensures { result ≡ [] }
    {
        AccessList {
            lines: Vec::new(alloc),
        }
    }

    /// A copy. Err where memory was refused.
    pub fn copy(&self) -> Result<AccessList, AllocError>
        ensures { IfOk result (λ copy. copy ≡ self.now) }
    {
        self.clone()
    }

    /// How many lines there are.
    pub fn len(&self) -> usize
        ensures { result ≡ length self.now }
    {
        self.lines.len()
    }

    /// Its lines, in order.
    pub fn lines(&self) -> &[Line]
        ensures { result.now ≡ self.now }
    {
        self.lines.as_slice()
    }

    /// Tells that each of its lines is one that a text can hold.
    pub fn spelled(&self)
        ensures { All IsSpelled self.now }
    {
        let _lines = &self.lines;
    }

    /// The line of a number that counts from 1, or `None` where there is none.
    pub fn line(&self, number: usize) -> Option<&Line>
        ensures { option_copied result ≡ line_at self.now number }
    {
        if number == 0 {
            return None;
        }
        self.lines().get(number - 1)
    }

    /// Adds a line at the end. Err where memory was refused, and then the list is as before. The
    /// limit `MOST_LINES` is the caller's to keep.
    pub fn push(&mut self, line: Line) -> Result<(), AllocError>
        ensures ok { OnOk result (self.new ≡ self.old ++ line ∷ []) }
        ensures err { OnErr result (self.new ≡ self.old) }
    {
        line.spelled();
        self.lines.push(line)?;
        Ok(())
    }

    /// Takes out the line of a number, which must be one of 1 .. `len`.
    pub fn take_out(&mut self, number: usize)
        requires counted { 0 < number }
        requires there { number ≤ length self.old }
        ensures { self.new ≡ removed self.old number }
    {
        self.lines.remove(number - 1);
    }

    /// Puts a line in place of that of a number, which must be one of 1 .. `len`.
    pub fn put(&mut self, number: usize, line: Line)
        requires counted { 0 < number }
        requires there { number ≤ length self.old }
        ensures { self.new ≡ replaced self.old number line }
    {
        line.spelled();
        self.lines[number - 1] = line;
    }

    /// Its lines as the journal has them: words with one space between, lines with `; ` between.
    /// Err where memory was refused.
    pub fn text(&self, alloc: Global) -> Result<String, AllocError>
        ensures { IfOk result (λ text. string_bytes text ≡ list_text self.now) }
    {
        let mut text = String::new(alloc);
        for (i, line) in self.lines.as_slice().iter().enumerate() {
            line.put(alloc, &mut text, i)?;
        }
        Ok(text)
    }
}
