//! One line of an access list.

ghost use Rattle.std.specs.Prelude.{◌≡◌, None, Some, IfOk, IsTrue, OnOk, option_copied, string_bytes};
ghost use Rattle.rv_text.specs.Names.{is_identifier};
ghost use Rattle.rv_access.specs.Spelled.{IsSpelled, is_star_or, is_dotted};
ghost use Rattle.rv_access.specs.Text.{front_text, line_text, with_line};
ghost use Rattle.rv_access.specs.Windows.{is_open};

use crate::window::Window;
use std::alloc::{AllocError, Global};
use std::marker::Model;

/// One line of a list: `allow` or `deny`, a unit, a `Unit.Object` and an operation, each a name as
/// written or `*`, and a window of ticks, if it has one. There is no line that a text couldn't hold.
#[derive(Clone, Drop)]
pub struct Line {
    // Whether it allows what it matches.
    allow: bool,
    // A unit's name, or `*`.
    unit: String,
    // `Unit.Object`, or `*`.
    object: String,
    // An operation's name, or `*`.
    operation: String,
    // When it matches; always where there is none.
    window: Option<Window>,
}

impl Model for Line {
    ghost use Rattle.rv_access.specs.Words.{Words};
    ghost use Rattle.rv_access.specs.Spelled.{IsSpelled};
    ghost use Rattle.std.specs.Prelude.{string_bytes};

    ghost Value = { Words };

    ghost view = { λ l. record {
      allow = l.allow;
      unit = string_bytes l.unit;
      object = string_bytes l.object;
      operation = string_bytes l.operation;
      window = l.window;
    } };

    ghost invariant = { λ l. IsSpelled (record {
      allow = l.allow;
      unit = string_bytes l.unit;
      object = string_bytes l.object;
      operation = string_bytes l.operation;
      window = l.window;
    }) };
}

impl Line {
    /// A line of these words without a window. Each must be `*` or a name: of a unit, of an object as
    /// `Unit.Object`, and of an operation. Err where memory was refused.
    pub fn new(
        alloc: Global,
        allow: bool,
        unit: &str,
        object: &str,
        operation: &str,
    ) -> Result<Line, AllocError>
        requires unit { IsTrue (is_star_or is_identifier unit.now) }
        requires object { IsTrue (is_star_or is_dotted object.now) }
        requires operation { IsTrue (is_star_or is_identifier operation.now) }
        ensures { IfOk result (λ l. l ≡ record { allow = allow; unit = unit.now; object = object.now; operation = operation.now; window = None }) }
    {
        let unit = String::from_str(alloc, unit)?;
        let object = String::from_str(alloc, object)?;
        let operation = String::from_str(alloc, operation)?;
        Ok(Line {
            allow,
            unit,
            object,
            operation,
            window: None,
        })
    }

    /// The line with a window, in place of the one that it has.
    pub fn within(self, window: Window) -> Line
        ensures { result ≡ record { allow = self.allow; unit = self.unit; object = self.object; operation = self.operation; window = Some window } }
    {
        let Line {
            allow,
            unit,
            object,
            operation,
            window: _,
        } = self;
        Line {
            allow,
            unit,
            object,
            operation,
            window: Some(window),
        }
    }

    /// A copy. Err where memory was refused.
    pub fn copy(&self) -> Result<Line, AllocError>
        ensures { IfOk result (λ copy. copy ≡ self.now) }
    {
        self.clone()
    }

    /// Whether it allows what it matches; otherwise it denies it.
    pub fn allows(&self) -> bool
        ensures { result ≡ self.now.allow }
    {
        self.allow
    }

    /// Tells that it is one that a text can hold.
    pub fn spelled(&self)
        ensures { IsSpelled self.now }
    {
        let _allow = self.allow;
    }

    /// The unit that calls, or `*`.
    pub fn unit(&self) -> &str
        ensures { result.now ≡ self.now.unit }
    {
        self.unit.as_str()
    }

    /// The `Unit.Object` that is called, or `*`.
    pub fn object(&self) -> &str
        ensures { result.now ≡ self.now.object }
    {
        self.object.as_str()
    }

    /// The operation that is called, or `*`.
    pub fn operation(&self) -> &str
        ensures { result.now ≡ self.now.operation }
    {
        self.operation.as_str()
    }

    /// Its window, if it has one.
    pub fn window(&self) -> Option<&Window>
        ensures { option_copied result ≡ self.now.window }
    {
        self.window.as_ref()
    }

    /// Whether it may match at a tick: its window holds the tick, or it has none.
    pub fn is_open(&self, tick: u64) -> bool
        ensures { result ≡ is_open self.now.window tick }
    {
        match &self.window {
            Some(window) => window.holds(tick),
            None => true,
        }
    }

    // Its first four words with one space between. Err where memory was refused.
    fn front(&self, alloc: Global) -> Result<String, AllocError>
        ensures { IfOk result (λ text. string_bytes text ≡ front_text self.now) }
    {
        let verb = if self.allow { "allow" } else { "deny" };
        let unit = self.unit();
        let object = self.object();
        let operation = self.operation();
        format!(in alloc; "{verb} {unit} {object} {operation}")
    }

    /// Its words with one space between, as the journal has them. Err where memory was refused.
    #[tactic(auto, using(crate::proofs::Texting::no_more))]
    pub fn text(&self, alloc: Global) -> Result<String, AllocError>
        ensures { IfOk result (λ text. string_bytes text ≡ line_text self.now) }
    {
        let mut text = self.front(alloc)?;
        if let Some(window) = &self.window {
            text.push_str(window.text(alloc)?.as_str())?;
        }
        Ok(text)
    }

    /// Puts it behind the text of so many lines of its list, with `; ` between. Err where memory was refused.
    pub fn put(&self, alloc: Global, text: &mut String, lines: usize) -> Result<(), AllocError>
        ensures { OnOk result (string_bytes text.new ≡ with_line (string_bytes text.old) lines self.now) }
    {
        if lines > 0 {
            text.push_str("; ")?;
        }
        text.push_str(self.text(alloc)?.as_str())?;
        Ok(())
    }
}
