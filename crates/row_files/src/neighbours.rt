//! What is said of things that are numbered, in lines: one for neighbours of which one and the same is said.

use std::alloc::{AllocError, Global};

/// Lines `FRONT FIRST..LAST -> WORDS`, or `FRONT NUMBER -> WORDS` for one alone; without a front word they begin with the
/// number.
#[derive(Drop)]
pub struct Neighbours<'a> {
    /// The lines of those that are behind.
    pub lines: String,
    /// Of how many something was said.
    pub count: usize,
    front: &'a str,
    // The first that isn't in a line yet, the next of which nothing is said yet, and what is said of those between.
    first: usize,
    next: usize,
    words: String,
}

impl<'a> Neighbours<'a> {
    /// Nothing so far. The lines have this front word, unless it is empty, and the numbers go from this one on.
    pub fn new(alloc: Global, front: &'a str, first: usize) -> Neighbours<'a> {
        Neighbours {
            lines: String::new(alloc),
            count: 0,
            front,
            first,
            next: first,
            words: String::new(alloc),
        }
    }

    /// What is said of the next one. It ends in a line feed.
    pub fn note(&mut self, alloc: Global, words: String) -> Result<(), AllocError> {
        if words.as_str() != self.words.as_str() {
            self.end(alloc)?;
            self.words = words;
        }
        self.next = self.next.saturating_add(1);
        self.count = self.count.saturating_add(1);
        Ok(())
    }

    // Puts what is said of neighbours behind the front word.
    fn put_line(&mut self, line: &str) -> Result<(), AllocError> {
        if !self.front.is_empty() {
            self.lines.push_str(self.front)?;
            self.lines.push_str(" ")?;
        }
        self.lines.push_str(line)
    }

    /// Nothing more is said: those that aren't in a line yet are put into one.
    pub fn end(&mut self, alloc: Global) -> Result<(), AllocError> {
        let first = self.first;
        if self.next <= first {
            return Ok(());
        }
        let last = self.next - 1;
        let words = self.words.as_str();
        let line = if first < last {
            format!(in alloc; "{first}..{last} -> {words}")?
        } else {
            format!(in alloc; "{first} -> {words}")?
        };
        self.put_line(line.as_str())?;
        self.first = self.next;
        Ok(())
    }
}
