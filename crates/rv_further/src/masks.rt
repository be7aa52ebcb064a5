//! A text in which something right stands in the place of faults.

use crate::changed::{Change, changed, place_in_text, with_change};
use crate::faults::{moved, place_of};
use crate::replacing::Mend;
use rv_cause::words::Words;
use rv_lex::kind::Kind;
use rv_lex::token::Token;
use rv_names::NameFault;
use rv_shape::catalogue::Catalogue;
use rv_text::is_same_name;
use rv_unit::{UnitFault, compile};
use std::alloc::{AllocError, Global};

/// What the compiler finds of a changed text.
#[derive(Clone, Copy)]
pub(crate) enum Finding {
    /// No fault of names is left.
    Nothing,
    /// This one, at a place of the text itself.
    Next(NameFault),
    /// One that the change made.
    Own,
}

/// A text, with what stands in the place of its faults.
#[derive(Drop)]
pub(crate) struct Masked<'a, 'c> {
    pub(crate) alloc: Global,
    pub(crate) text: &'a str,
    pub(crate) catalogue: &'c Catalogue,
    changes: Vec<Change<'a>>,
    // Names of which isn't known what they denote now.
    unsure: Vec<&'a str>,
    // How many bytes may still be compiled.
    left: usize,
}

// How many bytes are compiled at most.
const MOST_BYTES: usize = 4_000_000;

// What a fault is that stands behind a place of the text, where the text has these changes.
fn found_of(fault: NameFault, changes: &[Change<'_>], behind: usize) -> Finding {
    let Some(place) = place_of(fault) else {
        return Finding::Nothing;
    };
    match place_in_text(changes, place) {
        Some(at) if at > behind => Finding::Next(moved(fault, at)),
        _ => Finding::Own,
    }
}

impl<'a, 'c> Masked<'a, 'c> {
    /// The text as it stands, behind these units.
    pub(crate) fn new(alloc: Global, text: &'a str, catalogue: &'c Catalogue) -> Masked<'a, 'c> {
        Masked {
            alloc,
            text,
            catalogue,
            changes: Vec::new(alloc),
            unsure: Vec::new(alloc),
            left: MOST_BYTES,
        }
    }

    // What the compiler finds with these changes, of which the last mends a fault at a place.
    fn find(&mut self, changes: &[Change<'a>], place: usize) -> Result<Finding, AllocError> {
        let text = changed(self.alloc, self.text, changes)?;
        if text.len() > self.left {
            return Ok(Finding::Own);
        }
        self.left = self.left.saturating_sub(text.len());
        match compile(self.alloc, text.as_str(), self.catalogue) {
            Ok(_) => Ok(Finding::Nothing),
            Err(UnitFault::NoMemory) => Err(AllocError),
            Err(UnitFault::Types(_)) | Err(UnitFault::Shape(_)) => Ok(Finding::Nothing),
            Err(UnitFault::Names(fault)) => Ok(found_of(fault, changes, place)),
            Err(_) => Ok(Finding::Own),
        }
    }

    /// What the compiler finds of the text as it stands.
    pub(crate) fn first(&mut self) -> Result<Option<NameFault>, AllocError> {
        match compile(self.alloc, self.text, self.catalogue) {
            Err(UnitFault::Names(fault)) => Ok(Some(fault)),
            Err(UnitFault::NoMemory) => Err(AllocError),
            _ => Ok(None),
        }
    }

    // Takes as unsure the names that stand from a place of the text on, and before another.
    fn doubt(&mut self, tokens: &[Token<'a>], from: usize, end: usize) -> Result<(), AllocError> {
        for token in tokens {
            if token.place >= from && token.place < end && token.kind == Kind::Identifier {
                self.unsure.push(token.text)?;
            }
        }
        Ok(())
    }

    /// Tries to mend a fault at a place of the text, which has these words. What is found then; where the fault isn't mended, the text is as
    /// before.
    pub(crate) fn mend(
        &mut self,
        tokens: &[Token<'a>],
        place: usize,
        mend: &Mend<'a>,
    ) -> Result<Finding, AllocError> {
        let Some(changes) = with_change(self.alloc, self.changes.as_slice(), mend.change)? else {
            return Ok(Finding::Own);
        };
        let found = self.find(changes.as_slice(), place)?;
        if let Finding::Next(_) = found {
            self.changes = changes;
            self.doubt(tokens, mend.unsure, mend.sure)?;
            if !mend.name.is_empty() {
                self.unsure.push(mend.name)?;
            }
        }
        Ok(found)
    }

    // Whether a name is unsure.
    fn is_unsure(&self, name: &str) -> bool {
        for other in self.unsure.as_slice() {
            if is_same_name(other, name) {
                return true;
            }
        }
        false
    }

    /// Whether a fault whose words these are is one of the text itself: no part of the name there is unsure, nor the name that a
    /// reserved word there declares.
    pub(crate) fn is_sure(&self, words: &Words<'_, '_>) -> bool {
        if words.is_reserved() {
            return !self.is_unsure(words.word(1)) && !self.is_unsure(words.word(2));
        }
        let last = words.last_part();
        for part in 0..3usize {
            let count = part.saturating_mul(2);
            if count <= last && self.is_unsure(words.word(count)) {
                return false;
            }
        }
        true
    }
}
