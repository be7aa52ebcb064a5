//! The words of a line of a script, each with its place.

use rv_cause::cause::Cause;
use rv_cause::forms::Form;
use rv_text::{integer_of, next_line, next_word};
use std::alloc::{AllocError, Global};

/// A word of a line.
#[derive(Clone, Copy)]
struct Part<'a> {
    at: usize,
    word: &'a str,
}

/// The words of a line.
#[derive(Drop)]
pub(crate) struct Line<'a> {
    parts: Vec<Part<'a>>,
    // Where it ends.
    end: usize,
}

/// What the first form says that has this word, letter for letter.
pub(crate) fn said_of(forms: &[Form], word: &str) -> Option<&'static str> {
    for form in forms {
        if form.word == word {
            return Some(form.said);
        }
    }
    None
}

impl<'a> Line<'a> {
    /// The words of a line, between spaces and tabs; the line begins at a byte of the text.
    pub(crate) fn of(alloc: Global, line: &'a str, start: usize) -> Result<Line<'a>, AllocError> {
        let end = start.saturating_add(line.len());
        let mut parts = Vec::new(alloc);
        let mut rest = line;
        while let Some((word, behind)) = next_word(rest) {
            let front = rest.find(word).unwrap_or(0);
            let at = end.saturating_sub(rest.len()).saturating_add(front);
            parts.push(Part { at, word })?;
            rest = behind;
        }
        Ok(Line { parts, end })
    }

    /// How many words it has.
    pub(crate) fn count(&self) -> usize {
        self.parts.len()
    }

    /// The word of a number, from 0; empty where there is none.
    pub(crate) fn word(&self, number: usize) -> &'a str {
        match self.parts.get(number) {
            Some(part) => part.word,
            None => "",
        }
    }

    /// The byte of the text where the word of a number stands; the line's end where there is none.
    pub(crate) fn at(&self, number: usize) -> usize {
        match self.parts.get(number) {
            Some(part) => part.at,
            None => self.end,
        }
    }

    /// Whether there is a word of this number.
    pub(crate) fn has(&self, number: usize) -> bool {
        number < self.parts.len()
    }

    /// Whether the word of a number is this one, letter for letter.
    pub(crate) fn is(&self, number: usize, word: &str) -> bool {
        self.word(number) == word
    }

    /// The number that a word is, if it is one.
    pub(crate) fn number(&self, number: usize) -> Option<i64> {
        integer_of(self.word(number))
    }

    /// What is said of the word of a number, which is `{0}`.
    pub(crate) fn cause(&self, number: usize, said: &'static str) -> Cause<'a> {
        Cause::of(self.at(number), said, self.word(number))
    }
}

/// The lines of a text. Err where memory was refused.
pub(crate) fn lines_of<'a>(alloc: Global, text: &'a str) -> Result<Vec<Line<'a>>, AllocError> {
    let mut lines = Vec::new(alloc);
    let mut rest = text;
    'each: while let Some((line, behind)) = next_line(rest) {
        let start = text.len().saturating_sub(rest.len());
        lines.push(Line::of(alloc, line, start)?)?;
        rest = behind;
    }
    Ok(lines)
}
