//! The one cause of a fault, in the words of the text.

use crate::known::{Group, Known};
use std::alloc::{AllocError, Global};

/// The one cause of a fault: a sentence, and the place of the word that it speaks of.
#[derive(Clone, Copy)]
pub struct Cause<'a> {
    /// The byte of the text, from 0, that the caret stands under.
    pub at: usize,
    /// The byte of another place that the sentence speaks of, whose line is `{line}` in it.
    pub other: Option<usize>,
    // The sentence; `{0}` to `{5}` in it stand for the words, and `{low}` and `{high}` for the bounds.
    said: &'static str,
    words: [&'a str; 6],
    bounds: (i64, i64),
    // Names that end it, if there are any.
    ending: Option<Ending<'a>>,
}

// The names that end a sentence.
#[derive(Clone, Copy)]
struct Ending<'a> {
    // What stands before them.
    before: &'static str,
    // The only one; empty where all of the group are meant.
    near: &'a str,
    group: Group<'a>,
}

// The word that a hole of a sentence stands for.
fn filling<'a>(words: &[&'a str; 6], hole: &str) -> &'a str {
    match hole.as_bytes() {
        [digit] => match words.get(usize::from(digit.wrapping_sub(b'0'))) {
            Some(word) => *word,
            None => "",
        },
        _ => "",
    }
}

// How many characters of a word are said.
const MOST: usize = 100;

/// A character as it is shown: none but a tab may move what stands behind it.
pub fn shown(character: char) -> char {
    let code = character as u32;
    if code == 9 || code >= 32 && code != 127 && !(code >= 128 && code < 160) && code != 65_279 {
        return character;
    }
    '?'
}

// Adds a word to a sentence, as it is shown; of a long one the first part.
fn put_word(text: &mut String, word: &str) -> Result<(), AllocError> {
    let mut count = 0usize;
    for character in word.chars() {
        if count >= MOST {
            return text.push_str("...");
        }
        text.push(shown(character))?;
        count = count.saturating_add(1);
    }
    Ok(())
}

// Adds a bound of a range to a sentence.
fn put_bound(alloc: Global, text: &mut String, bound: i64) -> Result<(), AllocError> {
    let number = format!(in alloc; "{bound}")?;
    text.push_str(number.as_str())
}

// Adds the number of a line to a sentence.
fn put_line(alloc: Global, text: &mut String, line: usize) -> Result<(), AllocError> {
    let number = format!(in alloc; "{line}")?;
    text.push_str(number.as_str())
}

impl<'a> Cause<'a> {
    /// A sentence with words, of which some may be empty: `{0}` to `{5}` in it stand for them.
    pub fn full(at: usize, said: &'static str, words: [&'a str; 6]) -> Cause<'a> {
        Cause {
            at,
            other: None,
            said,
            words,
            bounds: (0, 0),
            ending: None,
        }
    }

    /// The same with the bounds of a range: `{low}` and `{high}` in it stand for them.
    pub fn with_bounds(self, low: i64, high: i64) -> Cause<'a> {
        Cause {
            at: self.at,
            other: self.other,
            said: self.said,
            words: self.words,
            bounds: (low, high),
            ending: self.ending,
        }
    }

    // Adds a part of the sentence: the first, or one that begins with a hole. The other place stands in the line of a number.
    fn put_part(
        &self,
        alloc: Global,
        text: &mut String,
        line: usize,
        part: &str,
    ) -> Result<(), AllocError> {
        let Some((hole, behind)) = part.split_once('}') else {
            return text.push_str(part);
        };
        let (low, high) = self.bounds;
        match hole {
            "line" => put_line(alloc, text, line)?,
            "low" => put_bound(alloc, text, low)?,
            "high" => put_bound(alloc, text, high)?,
            _ => put_word(text, filling(&self.words, hole))?,
        }
        text.push_str(behind)
    }

    /// A sentence with three words at most.
    pub fn new(at: usize, said: &'static str, words: [&'a str; 3]) -> Cause<'a> {
        let [first, second, third] = words;
        Cause::full(at, said, [first, second, third, "", "", ""])
    }

    /// A sentence with one word.
    pub fn of(at: usize, said: &'static str, word: &'a str) -> Cause<'a> {
        Cause::full(at, said, [word, "", "", "", "", ""])
    }

    /// A sentence with two words.
    pub fn pair(at: usize, said: &'static str, first: &'a str, second: &'a str) -> Cause<'a> {
        Cause::full(at, said, [first, second, "", "", "", ""])
    }

    /// A sentence without words.
    pub fn plain(at: usize, said: &'static str) -> Cause<'a> {
        Cause::of(at, said, "")
    }

    /// The same, which ends with a name that is near, or else with all of a group; where there are none it ends before these.
    pub fn with_names(self, before: &'static str, near: &'a str, group: Group<'a>) -> Cause<'a> {
        Cause {
            at: self.at,
            other: self.other,
            said: self.said,
            words: self.words,
            bounds: self.bounds,
            ending: Some(Ending {
                before,
                near,
                group,
            }),
        }
    }

    /// The same, which speaks of another place too.
    pub fn with_other(self, other: usize) -> Cause<'a> {
        Cause {
            at: self.at,
            other: Some(other),
            said: self.said,
            words: self.words,
            bounds: self.bounds,
            ending: self.ending,
        }
    }

    /// The sentence, where this is known, and the other place stands in the line of a number. Err where memory was refused.
    pub fn sentence(
        &self,
        alloc: Global,
        known: &Known<'_>,
        line: usize,
    ) -> Result<String, AllocError> {
        let mut text = String::new(alloc);
        for part in self.said.split('{') {
            self.put_part(alloc, &mut text, line, part)?;
        }
        if let Some(ending) = self.ending {
            ending.put(&mut text, known)?;
        }
        Ok(text)
    }
}

impl Ending<'_> {
    // Adds it to a sentence.
    fn put(&self, text: &mut String, known: &Known<'_>) -> Result<(), AllocError> {
        if self.near.is_empty() {
            return known.put_names(text, self.before, self.group);
        }
        text.push_str(self.before)?;
        text.push_str(self.near)
    }
}
