//! Why a command, or a unit text behind `load`, is refused, for people.

use rv_explain::{Explanation, explain, explain_command};
use rv_fault::{ScriptFault, What};
use rv_input::{MOST_BYTES, load_bytes};
use rv_shell::Order;
use rv_staff::say;
use rv_step::reading::StepError;
use std::alloc::Global;
use std::io::Write;

/// What an input gave so far, as a script: its lines are counted, and what stands against a unit text is explained over it. Past
/// the greatest length of a script, or where memory is refused, no more is kept, and of unit texts nothing is explained.
#[derive(Drop)]
pub(crate) struct Given {
    alloc: Global,
    bytes: Vec<u8>,
    // How many line feeds there were.
    lines: usize,
    is_whole: bool,
    // The line of the last command, where that is a `load` whose unit text was kept behind it.
    load: Option<usize>,
}

// How many line feeds there are among bytes.
fn line_feeds(bytes: &[u8]) -> usize {
    bytes.iter().filter(|byte| **byte == b'\n').count()
}

// What stands against a command line that was read so; nothing where memory was refused.
fn fault_of(read: &Result<Order, StepError>) -> Option<What> {
    match read {
        Ok(Order::Change(Err(fault))) => Some(What::List(*fault)),
        Ok(_) => None,
        Err(StepError::BadStep) => Some(What::BadStep),
        Err(StepError::NoMemory) => None,
    }
}

// Tells a fault with what it means, where there is memory for the words.
fn tell<E: Write>(alloc: Global, fault: ScriptFault, explanation: Explanation<'_>, errors: &mut E) {
    if let Ok(text) = format!(in alloc; "{fault}\n{explanation}") {
        let _ = say(errors, text.as_str());
    }
}

impl Given {
    /// Nothing came yet.
    pub(crate) fn new(alloc: Global) -> Given {
        Given {
            alloc,
            bytes: Vec::new(alloc),
            lines: 0,
            is_whole: true,
            load: None,
        }
    }

    /// Keeps what was read.
    pub(crate) fn keep(&mut self, bytes: &[u8]) {
        self.lines = self.lines.saturating_add(line_feeds(bytes));
        if bytes.len() > MOST_BYTES.saturating_sub(self.bytes.len()) {
            self.is_whole = false;
        }
        if self.is_whole {
            self.is_whole = self.bytes.extend_from_slice(bytes).is_ok();
        }
    }

    /// Keeps a line that was read.
    pub(crate) fn keep_line(&mut self, line: &str) {
        self.load = None;
        self.keep(line.as_bytes());
        self.keep(b"\n");
    }

    // Keeps the unit text behind a command `load` at a line, where it came whole with its line `@end`.
    fn keep_text(&mut self, line: usize, behind: &[u8]) {
        let text = load_bytes(behind);
        if text.len() > 0 {
            self.keep(text);
            self.load = Some(line);
        }
    }

    // Explains a fault of a unit text behind the line of this number.
    fn tell_text<E: Write>(&self, line: usize, what: What, errors: &mut E) {
        if !self.is_whole {
            return;
        }
        let fault = ScriptFault { line, what };
        let explanation = explain(self.alloc, self.bytes.as_slice(), fault);
        tell(self.alloc, fault, explanation, errors);
    }

    /// Keeps a command that was read so, behind which these bytes come of the input, and explains what stands against its line.
    pub(crate) fn explain<E: Write>(
        &mut self,
        line: &str,
        read: &Result<Order, StepError>,
        behind: &[u8],
        errors: &mut E,
    ) {
        let number = self.lines.saturating_add(1);
        self.keep_line(line);
        if let Ok(Order::Load) = read {
            self.keep_text(number, behind);
        }
        if let Some(what) = fault_of(read) {
            let fault = ScriptFault { line: number, what };
            let explanation = explain_command(self.alloc, number, line, what);
            tell(self.alloc, fault, explanation, errors);
        }
    }

    /// Explains what stands against the unit text of the last command, where that was kept.
    pub(crate) fn explain_text<E: Write>(&self, what: What, errors: &mut E) {
        if let Some(line) = self.load {
            self.tell_text(line, what, errors);
        }
    }
}
