//! The interrupt lines, their handlers and their priorities (ISO/IEC 8652:2012, C.3, C.3.1 and D.3).
#![tactic(auto)]

ghost use Rattle.std.specs.Prelude.{◌≡◌, ◌<◌, ◌+◌, ℕ, None, Some, replicate, slice_set};

use std::marker::Model;

/// How many interrupt lines there are, `Int_0` .. `Int_9`; the number is our own.
pub const LINES: usize = 10;

/// The priority of line 0, the least of Interrupt_Priority (D.1); that of each further line is one higher (our own).
pub const FIRST_PRIORITY: usize = 31;

/// The protected operation that an interrupt of a line calls (C.3.1).
#[derive(Clone, Copy, PartialEq, Eq, Debug, Drop)]
pub struct Handler {
    /// The object's number, from 1.
    pub object: usize,
    /// The operation's number, within the object and from 1.
    pub operation: usize,
}

/// The handlers that are attached to the lines, at most one each.
///
/// Contracts see a list with a place for each line.
#[derive(Drop, Debug)]
pub struct Lines {
    // Each line's handler.
    handlers: [Option<Handler>; LINES],
}

impl Model for Lines {
    ghost use Rattle.std.specs.Prelude.{List, Option};
    ghost use Rattle.rv_irq.specs.declared.Handler.{Handler};

    ghost Value = { List (Option Handler) };

    ghost view = { λ l. l.handlers };
}

impl Lines {
    ghost use Rattle.rv_irq.specs.Handlers.{handler_of};

    /// Lines without handlers.
    #[tactic(auto, using(crate::proofs::Attaching::none))]
    pub fn new() -> Lines
        ensures value { result ≡ replicate LINES None }
        ensures free { (line : ℕ) → handler_of result line ≡ None }
    {
        Lines {
            handlers: [None; LINES],
        }
    }

    /// The handler of a line, 0 .. 9, or `None` where none is attached; a line past 9 has none.
    pub fn handler(&self, line: usize) -> Option<Handler>
        ensures { result ≡ handler_of self.now line }
    {
        match self.handlers.get(line) {
            Some(handler) => *handler,
            None => None,
        }
    }

    /// Attaches a handler to a line, 0 .. 9, that has none.
    #[tactic(auto, using(crate::proofs::Attaching::own))]
    pub fn attach(&mut self, line: usize, handler: Handler)
        requires there { line < LINES }
        requires free { handler_of self.old line ≡ None }
        ensures value { self.new ≡ slice_set self.old line (Some handler) }
        ensures attached { handler_of self.new line ≡ Some handler }
    {
        self.handlers[line] = Some(handler);
    }
}

/// The priority of a line, 0 .. 9, at which its handler is called (C.3, D.1).
pub fn priority(line: usize) -> usize
    requires { line < LINES }
    ensures { result ≡ 31 + line }
{
    FIRST_PRIORITY + line
}
