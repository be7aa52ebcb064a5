//! A line of a script with a caret under a place, as compilers show it.

use crate::spot::Spot;
use rv_shown::{put_shown, width};
use std::fmt;

// How many characters of a line are shown before the place, and from it on.
const BEFORE: usize = 60;

const FROM: usize = 40;

/// The line of a place, with its number and column, and a caret under the place. Of a long line the part round the place is
/// shown.
#[derive(Clone, Copy)]
pub struct Excerpt<'a> {
    spot: Spot<'a>,
    // Its column, from 1.
    column: usize,
}

// How many digits a number has.
fn digits(number: usize) -> usize {
    let mut left = number;
    for count in 1..20usize {
        left = left / 10;
        if left == 0 {
            return count;
        }
    }
    20
}

fn put_blanks<W: fmt::Write>(f: &mut fmt::Formatter<W>, count: usize) -> fmt::Result {
    for _ in 0..count {
        f.write_str(" ")?;
    }
    Ok(())
}

// Puts what stands below a character, which is as wide.
fn put_below<W: fmt::Write>(f: &mut fmt::Formatter<W>, character: char) -> fmt::Result {
    if character == '\t' {
        return f.write_str("\t");
    }
    put_blanks(f, width(character))
}

impl<'a> Excerpt<'a> {
    /// The line of a place.
    pub fn new(spot: Spot<'a>) -> Excerpt<'a> {
        let column = spot.column();
        Excerpt { spot, column }
    }

    // The first column that is shown.
    fn first(&self) -> usize {
        if self.column > BEFORE + 1 {
            return self.column - BEFORE;
        }
        1
    }

    fn put_line<W: fmt::Write>(&self, f: &mut fmt::Formatter<W>) -> fmt::Result {
        let mut column = 1usize;
        if self.first() > 1 {
            f.write_str("...")?;
        }
        for character in self.spot.line.chars() {
            if column >= self.column.saturating_add(FROM) {
                return f.write_str("...");
            }
            if column >= self.first() {
                put_shown(f, character)?;
            }
            column = column.saturating_add(1);
        }
        Ok(())
    }

    fn put_caret<W: fmt::Write>(&self, f: &mut fmt::Formatter<W>) -> fmt::Result {
        let mut column = 1usize;
        if self.first() > 1 {
            f.write_str("   ")?;
        }
        for character in self.spot.line.chars() {
            if column >= self.column {
                return f.write_str("^");
            }
            if column >= self.first() {
                put_below(f, character)?;
            }
            column = column.saturating_add(1);
        }
        f.write_str("^")
    }
}

impl fmt::Display for Excerpt<'_> {
    fn fmt<W: fmt::Write>(&self, f: &mut fmt::Formatter<W>) -> fmt::Result {
        let number = self.spot.number;
        let column = self.column;
        let width = digits(number);
        put_blanks(f, width)?;
        write!(f, "--> {number}:{column}\n")?;
        put_blanks(f, width)?;
        write!(f, " |\n{number} | ")?;
        self.put_line(f)?;
        f.write_str("\n")?;
        put_blanks(f, width)?;
        f.write_str(" | ")?;
        self.put_caret(f)?;
        f.write_str("\n")
    }
}
