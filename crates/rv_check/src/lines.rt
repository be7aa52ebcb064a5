//! The lines of a script behind the opening of a part, one by one.

ghost use Rattle.std.specs.Prelude.{◌≡◌, ◌∷◌, [], IfNone, IfSome};
ghost use Rattle.rv_fault.specs.Parts.{section_of};
ghost use Rattle.rv_check.specs.ScriptLines.{lines_behind};

use rv_fault::{Part, Parts};
use rv_text::next_line;
use std::marker::Model;

/// The lines that are left behind the opening of a part: those of its text, and then the others with their openings.
#[derive(Drop)]
pub(crate) struct LinesBehind<'a> {
    // The number of the line that was taken last.
    line: usize,
    text: &'a str,
    parts: Parts<'a>,
}

impl<'a> Model for LinesBehind<'a> {
    ghost use Rattle.std.specs.Prelude.{◌≤◌, ◌+◌, ◌^◌, ◌++◌, List, length};
    ghost use Rattle.std.specs.List.{flat_map};
    ghost use Rattle.std.specs.Str.Lines.{lines};
    ghost use Rattle.rv_check.specs.ScriptLines.{LineText, numbered, section_lines};

    ghost Value = { List LineText };

    ghost view = { λ c. numbered (c.line + 1) (lines c.text.now) ++ flat_map section_lines c.parts };

    ghost invariant = { λ c. c.line + length c.text.now ≤ 2 ^ 63 };
}

impl<'a> LinesBehind<'a> {
    /// Those behind the opening of a part, which others follow.
    pub(crate) fn new(part: &Part<'a>, others: Parts<'a>) -> LinesBehind<'a>
        ensures { result ≡ lines_behind (section_of part.now) others.entry }
    {
        LinesBehind {
            line: part.line,
            text: part.text,
            parts: others,
        }
    }

    /// Takes the next line, with its number.
    pub(crate) fn take_line(&mut self) -> Option<(usize, &'a str)>
        ensures none { IfNone result (self.old ≡ []) }
        ensures first { IfSome result (λ l. self.old ≡ record { number = l.0; text = l.1.now } ∷ self.new) }
    {
        if let Some((line, rest)) = next_line(self.text) {
            self.line += 1;
            self.text = rest;
            return Some((self.line, line));
        }
        match self.parts.next_part() {
            Some(part) => {
                self.line = part.line;
                self.text = part.text;
                Some((part.line, part.heading))
            }
            None => None,
        }
    }
}
