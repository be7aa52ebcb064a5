//! Puts words behind a text, a space before each.

ghost use Rattle.std.specs.Prelude.{◌≡◌, [], ◌∷◌, ◌++◌, OnOk, IfOk, map, string_bytes};
ghost use Rattle.rv_tree.specs.DeclarationView.{maybe};
ghost use Rattle.rv_tree.specs.Onto.{Onto, bytes_onto, kind_onto, number_onto, flag_onto, maybe_onto, each_onto, after_onto, listed_onto, enclosed_onto};

use rv_lex::kind::Kind;
use std::alloc::{AllocError, Global};
use std::marker::Model;

/// The text that is printed so far.
#[derive(Drop)]
pub(crate) struct Printer {
    text: String,
}

impl Model for Printer {
    ghost use Rattle.std.specs.Prelude.{ℕ, List, string_bytes};

    ghost Value = { List ℕ };

    ghost view = { λ printer. string_bytes printer.text };
}

impl Printer {
    pub(crate) fn new(alloc: Global) -> Self
        ensures { result ≡ [] }
    {
        Printer {
            text: String::new(alloc),
        }
    }

    pub(crate) fn word(&mut self, word: &str) -> Result<(), AllocError>
        ensures { OnOk result (self.new ≡ bytes_onto word.now self.old) }
    {
        self.text.push_str(" ")?;
        self.text.push_str(word)
    }

    pub(crate) fn kind(&mut self, kind: Kind) -> Result<(), AllocError>
        ensures { OnOk result (self.new ≡ kind_onto kind self.old) }
    {
        self.word(kind.spelling())
    }

    pub(crate) fn number(&mut self, value: u64) -> Result<(), AllocError>
        ensures { OnOk result (self.new ≡ number_onto value self.old) }
    {
        self.text.push_str(" ")?;
        write!(self.text, "{value}")
    }

    pub(crate) fn flag(&mut self, kind: Kind, is_written: bool) -> Result<(), AllocError>
        ensures { OnOk result (self.new ≡ flag_onto kind is_written self.old) }
    {
        if is_written { self.kind(kind) } else { Ok(()) }
    }

    pub(crate) fn maybe<T: Printed>(&mut self, part: &Option<T>) -> Result<(), AllocError>
        ensures { OnOk result (self.new ≡ maybe_onto T.onto (maybe T.view part.now) self.old) }
    {
        match part {
            None => Ok(()),
            Some(part) => part.print(self),
        }
    }

    pub(crate) fn each<T: Printed>(&mut self, mut parts: &[T]) -> Result<(), AllocError>
        ensures { OnOk result (self.new ≡ each_onto T.onto (map T.view parts.entry.now) self.old) }
    {
        while let [part, rest @ ..] = parts {
            part.print(self)?;
            parts = rest;
        }
        Ok(())
    }

    fn after<T: Printed>(&mut self, between: Kind, part: &T) -> Result<(), AllocError>
        ensures { OnOk result (self.new ≡ after_onto between T.onto (T.view part.now) self.old) }
    {
        self.kind(between)?;
        part.print(self)
    }

    pub(crate) fn each_after<T: Printed>(
        &mut self,
        between: Kind,
        mut parts: &[T],
    ) -> Result<(), AllocError>
        ensures { OnOk result
            (self.new ≡ each_onto (after_onto between T.onto) (map T.view parts.entry.now) self.old) }
    {
        while let [part, rest @ ..] = parts {
            self.after(between, part)?;
            parts = rest;
        }
        Ok(())
    }

    pub(crate) fn listed<T: Printed>(
        &mut self,
        between: Kind,
        parts: &[T],
    ) -> Result<(), AllocError>
        ensures { OnOk result
            (self.new ≡ listed_onto between T.onto (map T.view parts.entry.now) self.old) }
    {
        match parts {
            [] => Ok(()),
            [part, rest @ ..] => {
                part.print(self)?;
                self.each_after(between, rest)
            }
        }
    }

    pub(crate) fn enclosed<T: Printed>(
        &mut self,
        opening: Kind,
        between: Kind,
        closing: Kind,
        parts: &[T],
    ) -> Result<(), AllocError>
        ensures { OnOk result
            (self.new ≡ enclosed_onto opening between closing T.onto (map T.view parts.entry.now) self.old) }
    {
        match parts {
            [] => Ok(()),
            [part, rest @ ..] => {
                self.kind(opening)?;
                part.print(self)?;
                self.each_after(between, rest)?;
                self.kind(closing)
            }
        }
    }

    /// The text, with a space at its end.
    pub(crate) fn finish(self) -> Result<String, AllocError>
        ensures { IfOk result (λ text. string_bytes text ≡ self ++ 32 ∷ []) }
    {
        let Printer { mut text } = self;
        text.push_str(" ")?;
        Ok(text)
    }
}

/// What is printed as words.
pub(crate) trait Printed {
    ghost use Rattle.rv_tree.specs.Onto.{Onto};

    ghost Tree: { Type 0 };

    ghost view: { Self → Tree };

    ghost onto: { Tree → Onto };

    fn print(&self, out: &mut Printer) -> Result<(), AllocError>
        ensures { OnOk result (out.new ≡ onto (view self.now) out.old) };
}
