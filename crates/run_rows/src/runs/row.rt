//! Rows: what is typed at a terminal, and what has to be answered there.
//!
//! A row is a transcript. The lines up to the first line `@run` are typed at once; where there is none, those before the
//! first `^D`. Behind them stands what is answered, with lines of these forms in between:
//!
//! - `> TEXT`: the line TEXT is typed, once what stands above is answered and flushed;
//! - `~ TEXT`: it is typed again and again until it is answered by what stands below;
//! - `^D`: the input ends;
//! - `$ closed`: from here on nothing can be written;
//! - `! TEXT`: the run ends by this fault.

use std::alloc::{AllocError, Global};

/// What is typed at once, and what has to be answered to it.
#[derive(Drop)]
pub struct Turn {
    /// The line of the row that it stands in, from 1.
    pub number: usize,
    /// What is typed; nothing where the input ends.
    pub typed: String,
    /// Whether it may be typed again.
    pub is_repeated: bool,
    /// What has to be written, and flushed, before anything more is read.
    pub answer: String,
    /// Whether nothing can be written behind it.
    pub is_last_written: bool,
}

/// A row.
#[derive(Drop)]
pub struct Row {
    pub turns: Vec<Turn>,
    /// The words of the fault that the run ends by; none where it ends well.
    pub fault: String,
}

impl Turn {
    // A turn in a line of a row.
    fn new(alloc: Global, number: usize) -> Turn {
        Turn {
            number,
            typed: String::new(alloc),
            is_repeated: false,
            answer: String::new(alloc),
            is_last_written: false,
        }
    }

    // Types a line.
    fn type_line(&mut self, line: &str) -> Result<(), AllocError> {
        self.typed.push_str(line)?;
        self.typed.push_str("\n")
    }

    // Takes a line of the answer.
    fn answer_line(&mut self, line: &str) -> Result<(), AllocError> {
        self.answer.push_str(line)?;
        self.answer.push_str("\n")
    }
}

impl Row {
    // Takes a line behind the sections.
    fn take(&mut self, alloc: Global, number: usize, line: &str) -> Result<(), AllocError> {
        let mut turn = Turn::new(alloc, number);
        if let Some(text) = line.strip_prefix("> ") {
            turn.type_line(text)?;
            self.turns.push(turn)?;
            return Ok(());
        }
        if let Some(text) = line.strip_prefix("~ ") {
            turn.type_line(text)?;
            turn.is_repeated = true;
            self.turns.push(turn)?;
            return Ok(());
        }
        if line == "^D" {
            self.turns.push(turn)?;
            return Ok(());
        }
        if let Some(text) = line.strip_prefix("! ") {
            return self.fault.push_str(text);
        }
        match self.turns.last_mut() {
            Some(last) if line == "$ closed" => {
                last.is_last_written = true;
                Ok(())
            }
            Some(last) => last.answer_line(line),
            None => Ok(()),
        }
    }
}

/// The row that a text is.
pub fn row_of(alloc: Global, text: &str) -> Result<Row, AllocError> {
    let mut row = Row {
        turns: Vec::new(alloc),
        fault: String::new(alloc),
    };
    let mut sections = Some(Turn::new(alloc, 1));
    for (index, line) in text.lines().enumerate() {
        match sections.take() {
            Some(turn) if line == "^D" => {
                row.turns.push(turn)?;
                row.take(alloc, index.saturating_add(1), line)?;
            }
            Some(mut turn) => {
                turn.type_line(line)?;
                if line == "@run" {
                    row.turns.push(turn)?;
                } else {
                    sections = Some(turn);
                }
            }
            None => row.take(alloc, index.saturating_add(1), line)?,
        }
    }
    Ok(row)
}
