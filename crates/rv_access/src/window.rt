//! Windows of ticks.

ghost use Rattle.std.specs.Prelude.{◌≡◌, ◌&&◌, Some, IfOk, IfSome, IsTrue, is_some, nat_le, nat_lt, string_bytes};
ghost use Rattle.rv_text.specs.Numbers.{read_on};
ghost use Rattle.rv_access.specs.Text.{window_text};
ghost use Rattle.rv_access.specs.Windows.{first_tick, end_tick, is_framed, is_window};

use rv_text::{is_same_name, natural_of};
use std::alloc::{AllocError, Global};
use std::marker::Model;

/// The greatest tick that a window names, 10^15; the limit is our own.
pub const MOST_TICK: u64 = 1_000_000_000_000_000;

/// The words of a window, as they stand in a text.
#[derive(Drop)]
pub(crate) struct Phrase<'a> {
    pub from: &'a str,
    pub opening: &'a str,
    pub until: &'a str,
    pub closing: &'a str,
}

impl<'a> Model for Phrase<'a> {
    ghost use Rattle.rv_access.specs.Words.{WindowWords};

    ghost Value = { WindowWords };

    ghost view = { λ p. record {
      from = p.from.now;
      opening = p.opening.now;
      until = p.until.now;
      closing = p.closing.now;
    } };
}

/// A window of ticks, `from A until B` as written: the ticks from A on, and before B. There is none that a text couldn't
/// hold.
#[derive(Clone, Drop)]
pub struct Window {
    // The words around the numbers.
    from: String,
    until: String,
    // The numbers as written.
    opening: String,
    closing: String,
    // The ticks that they are.
    first: u64,
    end: u64,
}

impl Model for Window {
    ghost use Rattle.rv_access.specs.Words.{WindowWords};
    ghost use Rattle.rv_access.specs.Windows.{IsWindow};
    ghost use Rattle.rv_text.specs.Numbers.{read_on};
    ghost use Rattle.std.specs.Prelude.{◌≡◌, string_bytes};

    ghost Value = { WindowWords };

    ghost view = { λ w. record {
      from = string_bytes w.from;
      opening = string_bytes w.opening;
      until = string_bytes w.until;
      closing = string_bytes w.closing;
    } };

    ghost invariant = { λ w.
        (w.first ≡ read_on 0 (string_bytes w.opening)) × (w.end ≡ read_on 0 (string_bytes w.closing)) × IsWindow (record {
          from = string_bytes w.from;
          opening = string_bytes w.opening;
          until = string_bytes w.until;
          closing = string_bytes w.closing;
        }) };
}

impl<'a> Phrase<'a> {
    /// Whether the words `from` and `until`, case ignored, stand before the numbers.
    pub fn is_framed(&self) -> bool
        ensures { result ≡ is_framed self.now }
    {
        is_same_name(self.from, "from") && is_same_name(self.until, "until")
    }

    /// The ticks that its numbers are: 1 to 18 digits each, the first below the second, and neither above 10^15.
    pub fn ticks(&self) -> Option<(u64, u64)>
        ensures some { is_some result ≡ is_window self.now }
        ensures ticks { IfSome result (λ t. (t.0 ≡ first_tick self.now) × (t.1 ≡ end_tick self.now)) }
    {
        let Some(first) = natural_of(self.opening) else {
            return None;
        };
        let Some(end) = natural_of(self.closing) else {
            return None;
        };
        if first < end && end <= MOST_TICK {
            return Some((first, end));
        }
        None
    }
}

impl Window {
    /// The window of these words, whose ticks these are. Err where memory was refused.
    pub(crate) fn new(
        alloc: Global,
        words: &Phrase,
        first: u64,
        end: u64,
    ) -> Result<Window, AllocError>
        requires framed { IsTrue (is_framed words.now) }
        requires numbers { IsTrue (is_window words.now) }
        requires first { first ≡ first_tick words.now }
        requires end { end ≡ end_tick words.now }
        ensures { IfOk result (λ w. w ≡ words.now) }
    {
        let from = String::from_str(alloc, words.from)?;
        let until = String::from_str(alloc, words.until)?;
        let opening = String::from_str(alloc, words.opening)?;
        let closing = String::from_str(alloc, words.closing)?;
        Ok(Window {
            from,
            until,
            opening,
            closing,
            first,
            end,
        })
    }

    /// Its first tick.
    pub fn first(&self) -> u64
        ensures { result ≡ first_tick self.now }
    {
        self.first
    }

    /// The first tick behind it.
    pub fn end(&self) -> u64
        ensures { result ≡ end_tick self.now }
    {
        self.end
    }

    /// Whether a tick is in it.
    pub fn holds(&self, tick: u64) -> bool
        ensures { result ≡ (nat_le (first_tick self.now) tick && nat_lt tick (end_tick self.now)) }
    {
        self.first <= tick && tick < self.end
    }

    /// Its words as written, with a space before each. Err where memory was refused.
    pub fn text(&self, alloc: Global) -> Result<String, AllocError>
        ensures { IfOk result (λ text. string_bytes text ≡ window_text (Some self.now)) }
    {
        let from = self.from.as_str();
        let opening = self.opening.as_str();
        let until = self.until.as_str();
        let closing = self.closing.as_str();
        format!(in alloc; " {from} {opening} {until} {closing}")
    }
}
