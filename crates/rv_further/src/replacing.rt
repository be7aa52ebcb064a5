//! What may stand in the place of a fault.

use crate::changed::Change;
use crate::regions::{begin_of, closing, declared_before, end_of, end_place};
use rv_cause::around::Around;
use rv_cause::known::{Group, Known};
use rv_cause::words::Words;
use rv_names::NameFault;
use rv_text::is_same_name;
use std::alloc::{AllocError, Global};

// What may stand in the place of a name: the name that is meant, a value, a type, or what has the name in it left out.
#[derive(Clone, Copy)]
enum Way {
    Meant,
    Number,
    Truth,
    Subtype,
    Statement,
    Others,
    Nothing,
}

const WAYS: [Way; 7] = [
    Way::Meant,
    Way::Number,
    Way::Truth,
    Way::Subtype,
    Way::Statement,
    Way::Others,
    Way::Nothing,
];

/// A change that may mend a fault. Of the names that stand from a place on and before another isn't sure what they denote then.
#[derive(Clone, Copy)]
pub(crate) struct Mend<'a> {
    pub(crate) change: Change<'a>,
    pub(crate) unsure: usize,
    pub(crate) sure: usize,
    /// One more such name; empty where there is none.
    pub(crate) name: &'a str,
}

/// A fault's word, and what is around it.
#[derive(Clone, Copy)]
pub(crate) struct Place<'t, 'a, 'k> {
    pub(crate) words: Words<'t, 'a>,
    pub(crate) around: Around<'a>,
    pub(crate) known: &'k Known<'a>,
}

impl<'t, 'a, 'k> Place<'t, 'a, 'k> {
    // Puts a word in the place of the words up to one that stands so many behind; the names that stand from so many before are unsure.
    fn put(&self, last: usize, word: &'a str, before: usize) -> Mend<'a> {
        Mend {
            change: Change {
                at: self.words.place(0),
                end: end_place(&self.words, last),
                word,
            },
            unsure: self.words.before(before).place(0),
            sure: end_place(&self.words, self.words.last_part()),
            name: self.declared(),
        }
    }

    // The operation whose head the name stands in: its body may have another then.
    fn declared(&self) -> &'a str {
        if self.around.is_in_head {
            self.around.operation
        } else {
            ""
        }
    }

    // The same for a name that is put in the place of a body's, of which there may be one behind it.
    fn doubled(&self, near: &'a str) -> &'a str {
        if self.words.fit("body|function|procedure|entry ^_") {
            near
        } else {
            self.declared()
        }
    }

    // How many words behind the name stands the last of its arguments, or of itself.
    fn last_argument(&self) -> usize {
        let last = self.words.last_part();
        let next = last.saturating_add(1);
        if self.words.is(next, "(") {
            closing(&self.words, next)
        } else {
            last
        }
    }

    // The name that is near to the word, and seen there.
    fn meant(&self, alloc: Global) -> Result<Option<Mend<'a>>, AllocError> {
        let word = self.words.word(0);
        let before = declared_before(&self.words);
        if self.words.was(1, "body") && self.words.was(2, "package") {
            return Ok(Some(self.put(0, self.around.unit, before)));
        }
        let group = if self.around.unit.is_empty() {
            Group::Units
        } else {
            Group::seen(&self.around)
        };
        match self.known.near(alloc, word, group)? {
            near if near.is_empty() || is_same_name(near, word) => Ok(None),
            near => {
                let mut mend = self.put(0, near, before);
                mend.name = self.doubled(near);
                Ok(Some(mend))
            }
        }
    }

    // The name behind an `end` is left out: nothing else speaks of it.
    fn unnamed(&self) -> Mend<'a> {
        let at = self.words.place(0);
        let end = end_place(&self.words, 0);
        Mend {
            change: Change { at, end, word: "" },
            unsure: at,
            sure: at,
            name: "",
        }
    }

    // The statement that the name stands in, without its `;`, becomes this.
    fn statement(&self, word: &'a str) -> Option<Mend<'a>> {
        let first = self.words.before(begin_of(&self.words));
        let end = self.words.place(end_of(&self.words)?);
        Some(Mend {
            change: Change {
                at: first.place(0),
                end,
                word,
            },
            unsure: self.words.place(0),
            sure: end_place(&self.words, self.words.last_part()),
            name: "",
        })
    }

    // The declaration that the name stands in is left out, with its `;`.
    fn nothing(&self) -> Option<Mend<'a>> {
        let first = self.words.before(begin_of(&self.words));
        let end = self.words.place(end_of(&self.words)?).saturating_add(1);
        let at = first.place(0);
        Some(Mend {
            change: Change { at, end, word: "" },
            unsure: at,
            sure: end,
            name: self.declared(),
        })
    }

    // What is put in the place of the fault in a way, if there is something.
    fn mend(&self, alloc: Global, way: Way) -> Result<Option<Mend<'a>>, AllocError> {
        match way {
            Way::Meant => self.meant(alloc),
            Way::Number => Ok(Some(self.put(self.last_argument(), "0", 0))),
            Way::Truth => Ok(Some(self.put(self.last_argument(), "True", 0))),
            Way::Subtype => Ok(Some(self.put(
                self.words.last_part(),
                "Integer",
                declared_before(&self.words),
            ))),
            Way::Statement => Ok(self.statement("null")),
            Way::Others => Ok(Some(self.put(self.words.last_part(), "others", 0))),
            Way::Nothing => Ok(self.nothing()),
        }
    }

    // All that may be put in the place of a name.
    fn of_name(&self, alloc: Global) -> Result<Vec<Mend<'a>>, AllocError> {
        let mut mends = Vec::new(alloc);
        for way in &WAYS {
            if let Some(mend) = self.mend(alloc, *way)? {
                mends.push(mend)?;
            }
        }
        Ok(mends)
    }

    // That alone.
    fn only(&self, alloc: Global, mend: Option<Mend<'a>>) -> Result<Vec<Mend<'a>>, AllocError> {
        let mut mends = Vec::new(alloc);
        if let Some(mend) = mend {
            mends.push(mend)?;
        }
        Ok(mends)
    }

    /// What may be put in the place of a fault, to be tried in order. Of a context clause that is a unit alone, since what a library
    /// package declares isn't known elsewhere.
    pub(crate) fn mends(
        &self,
        alloc: Global,
        fault: NameFault,
    ) -> Result<Vec<Mend<'a>>, AllocError> {
        match fault {
            NameFault::EndName(_) => self.only(alloc, Some(self.unnamed())),
            NameFault::Duplicate(_) => self.only(alloc, self.nothing()),
            NameFault::NoMemory => self.only(alloc, None),
            _ if self.around.unit.is_empty() => {
                let mend = self.meant(alloc)?;
                self.only(alloc, mend)
            }
            _ => self.of_name(alloc),
        }
    }
}
