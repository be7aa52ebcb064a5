//! What the names of a unit text denote where they stand, as the scope there has it that judges the text, and what the texts say of that.

use rv_cause::declared::Declared;
use rv_cause::known::{Group, Known};
use rv_cause::words::Words;
use rv_scope::scope::Scope;
use rv_scope::{Declared as Meaning, Sort};
use rv_seen::{Stop, place_of, stop_of};
use rv_tree::name::{Identifier, Name};
use std::alloc::{AllocError, Global};

/// What is declared at a place, by the scope there and by the texts, and where the name stops that stands there.
#[derive(Clone, Copy)]
pub struct Judged<'p, 's, 'k, 'a> {
    pub scope: &'p Scope<'s>,
    pub stop: Stop,
    pub known: &'k Known<'a>,
}

// The identifier that stands so many words behind.
fn identifier_at(
    alloc: Global,
    words: &Words<'_, '_>,
    count: usize,
) -> Result<Identifier, AllocError> {
    Ok(Identifier {
        at: words.place(count),
        text: String::from_str(alloc, words.word(count))?,
    })
}

// The name that begins here.
fn name_at(alloc: Global, words: &Words<'_, '_>) -> Result<Name, AllocError> {
    let last = words.last_part();
    let mut more = Vec::new(alloc);
    for number in 1..8usize {
        let behind = number.saturating_mul(2);
        if behind <= last {
            more.push(identifier_at(alloc, words, behind)?)?;
        }
    }
    Ok(Name {
        first: identifier_at(alloc, words, 0)?,
        more,
    })
}

/// What is declared, in words.
pub(crate) fn words_of_sort<'w>(sort: Sort) -> &'w str {
    match sort {
        Sort::Subtype => "a subtype",
        Sort::Constant | Sort::Literal => "a constant",
        Sort::Variable => "a variable",
        Sort::Function => "a function",
        Sort::Procedure => "a procedure",
        Sort::Entry => "an entry",
        Sort::ProtectedType | Sort::SingleProtected => "a protected unit",
        Sort::ProtectedObject | Sort::Suspension => "an object",
        Sort::SuspensionType => "a type",
        Sort::Task => "a task",
        Sort::Exception => "an exception",
        Sort::OwnUnit | Sort::Unit | Sort::Library => "a package",
    }
}

impl<'p, 's, 'k, 'a> Judged<'p, 's, 'k, 'a> {
    /// What is declared where these words stand.
    pub fn at(
        alloc: Global,
        words: &Words<'_, '_>,
        scope: &'p Scope<'s>,
        known: &'k Known<'a>,
    ) -> Result<Judged<'p, 's, 'k, 'a>, AllocError> {
        let name = name_at(alloc, words)?;
        Ok(Judged {
            scope,
            stop: stop_of(scope, &name),
            known,
        })
    }

    // An object of a loaded unit, by their indexes, as its text has it.
    fn object(&self, unit: usize, object: usize) -> Option<&'k Declared<'a>> {
        let shape = self.scope.shapes().get(unit)?;
        let name = shape.objects().get(object)?.name();
        self.known.find(Group::Package(shape.name()), name)
    }

    // An operation of an object of a loaded unit, likewise.
    fn operation(&self, unit: usize, object: usize, operation: usize) -> Option<&'k Declared<'a>> {
        let item = self.object(unit, object)?;
        let found = self.scope.shapes().get(unit)?.objects().get(object)?;
        let name = found.operations().get(operation)?.name();
        let members = Group::Members(item.unit, item.operations_home());
        self.known.find(members, name)
    }

    /// What the texts say of a declaration; of what a library package declares nothing.
    pub fn item(&self, found: Meaning) -> Option<&'k Declared<'a>> {
        match found {
            Meaning::OwnUnit => self.known.find(Group::Units, self.scope.unit()),
            Meaning::Unit(unit) => {
                let shape = self.scope.shapes().get(unit)?;
                self.known.find(Group::Units, shape.name())
            }
            Meaning::UnitObject(unit, object) | Meaning::UnitSuspension(unit, object) => {
                self.object(unit, object)
            }
            Meaning::UnitOperation(unit, object, operation, _) => {
                self.operation(unit, object, operation)
            }
            _ => self.known.own_at(place_of(found)?),
        }
    }

    /// What a simple name means there, as the texts have it.
    pub fn meaning(&self, name: &str) -> Option<&'k Declared<'a>> {
        self.item(self.scope.direct(name)?)
    }

    /// What the name denotes that stands there, as the texts have it, and how many words behind stands its last part.
    pub fn denoted(&self, words: &Words<'_, '_>) -> Option<(&'k Declared<'a>, usize)> {
        match self.stop {
            Stop::Denotes(found) => Some((self.item(found)?, words.last_part())),
            _ => None,
        }
    }
}
