//! The terminal at which a row is played: a keyboard whose next line is typed only once the line before was answered, and a
//! screen.

ghost use Rattle.std.specs.Prelude.{◌≤◌, IfOk, length};

use crate::runs::row::Turn;
use std::alloc::Global;
use std::cell::RefCell;
use std::io::{ErrorKind, Read, Write};
use std::time::{Clock, Duration};
use std::{io, thread};

// How often a line is typed again at most, and how long the operator waits in between. A run serves 100,000 commands.
const MOST_TRIES: usize = 20_000;

const PAUSE_MILLISECONDS: u64 = 1;

/// What is at a terminal.
#[derive(Drop)]
pub struct Terminal {
    turns: Vec<Turn>,
    /// The turn that is typed or answered.
    at: usize,
    /// How many bytes of it were typed.
    typed: usize,
    /// How often it was typed again.
    tries: usize,
    /// What was written since, and how many bytes of it were flushed.
    shown: Vec<u8>,
    flushed: usize,
    /// Whether nothing can be written any more.
    is_closed: bool,
    /// The line of the first turn that was answered otherwise.
    wrong: Option<usize>,
}

/// What follows a turn that was typed whole.
#[derive(Clone, Copy, Drop, PartialEq, Eq)]
enum Next {
    /// The next turn is typed.
    Turn,
    /// The same is typed again.
    Again,
    /// Nothing is typed.
    Nothing,
}

impl Terminal {
    /// A terminal at which nothing was typed yet.
    pub fn new(alloc: Global, turns: Vec<Turn>) -> Terminal {
        Terminal {
            turns,
            at: 0,
            typed: 0,
            tries: 0,
            shown: Vec::new(alloc),
            flushed: 0,
            is_closed: false,
            wrong: None,
        }
    }

    /// The line of the first turn that was answered otherwise, or never came.
    pub fn first_wrong(&self) -> Option<usize> {
        if self.wrong.is_some() {
            return self.wrong;
        }
        match self.turns.get(self.at) {
            Some(turn) if self.has_more() || !self.is_answered(turn) => Some(turn.number),
            Some(_) => None,
            None => Some(0),
        }
    }

    // What is left to be typed of a turn.
    fn rest(&self) -> &[u8] {
        match self.turns.get(self.at) {
            Some(turn) => turn.typed.as_bytes().get(self.typed..).unwrap_or(&[]),
            None => &[],
        }
    }

    // Whether more turns follow.
    fn has_more(&self) -> bool {
        self.at.saturating_add(1) < self.turns.len()
    }

    // Whether what was written since is the answer to a turn.
    fn is_answered(&self, turn: &Turn) -> bool {
        self.shown.as_slice() == turn.answer.as_bytes()
    }

    // What follows the turn. Behind an answer that wasn't flushed nothing does.
    fn next(&self) -> Next {
        let Some(turn) = self.turns.get(self.at) else {
            return Next::Nothing;
        };
        if self.flushed == self.shown.len() && self.is_answered(turn) && self.has_more() {
            return Next::Turn;
        }
        if turn.is_repeated && self.tries < MOST_TRIES {
            return Next::Again;
        }
        Next::Nothing
    }

    // Comes to the next turn.
    fn go_on(&mut self) {
        if let Some(turn) = self.turns.get(self.at) {
            self.is_closed = turn.is_last_written;
        }
        self.at = self.at.saturating_add(1);
        self.tries = 0;
    }

    // Makes up what is typed next. Whether it is typed again.
    fn make_up(&mut self) -> bool {
        let next = self.next();
        match next {
            Next::Turn => self.go_on(),
            Next::Again => self.tries = self.tries.saturating_add(1),
            Next::Nothing => {
                self.wrong = self.turns.get(self.at).map(|turn| turn.number);
                return false;
            }
        }
        self.typed = 0;
        self.shown.clear();
        self.flushed = 0;
        next == Next::Again
    }

    // Types into bytes. How many were typed.
    fn type_into(&mut self, bytes: &mut [u8]) -> usize
        ensures { result ≤ length bytes.new }
    {
        let rest = self.rest();
        let count = rest.len().min(bytes.len());
        bytes[..count].copy_from_slice(&rest[..count]);
        self.typed = self.typed.saturating_add(count);
        count
    }

    // Shows bytes.
    fn show(&mut self, bytes: &[u8]) -> io::Result<usize>
        ensures { IfOk result (λ count. count ≤ length bytes.now) }
    {
        if self.is_closed {
            return Err(io::Error::from(ErrorKind::BrokenPipe));
        }
        self.shown.extend_from_slice(bytes)?;
        Ok(bytes.len())
    }
}

// A terminal that is in use elsewhere. It never is: a run reads and writes by turns.
fn in_use() -> io::Error {
    io::Error::from(ErrorKind::WouldBlock)
}

/// What is typed at a terminal.
#[derive(Drop)]
pub struct Keyboard<'a, C> {
    pub clock: &'a C,
    pub terminal: &'a RefCell<Terminal>,
}

impl<C: Clock> Read for Keyboard<'_, C> {
    fn read(&mut self, buf: &mut [u8]) -> io::Result<usize> {
        let Ok(mut terminal) = self.terminal.try_borrow_mut() else {
            return Err(in_use());
        };
        if terminal.rest().is_empty() && terminal.make_up() {
            thread::sleep(self.clock, Duration::from_millis(PAUSE_MILLISECONDS));
        }
        Ok(terminal.type_into(buf))
    }
}

/// What is written at a terminal.
#[derive(Drop)]
pub struct Screen<'a> {
    pub terminal: &'a RefCell<Terminal>,
}

impl Write for Screen<'_> {
    fn write(&mut self, buf: &[u8]) -> io::Result<usize> {
        match self.terminal.try_borrow_mut() {
            Ok(mut terminal) => terminal.show(buf),
            Err(_) => Err(in_use()),
        }
    }

    fn flush(&mut self) -> io::Result<()> {
        match self.terminal.try_borrow_mut() {
            Ok(mut terminal) => {
                terminal.flushed = terminal.shown.len();
                Ok(())
            }
            Err(_) => Err(in_use()),
        }
    }
}
