//! All that the units of a script declare, and which of it a name means.

use crate::around::Around;
use crate::declared::{Declared, Sort, either};
use crate::forms::is_listed;
use crate::words::Words;
use rv_lex::token::Token;
use rv_near::nearest;
use rv_text::{is_identifier, is_same_name};
use std::alloc::{AllocError, Global};

/// All that the units of a script declare.
#[derive(Drop)]
pub struct Known<'a> {
    items: Vec<Declared<'a>>,
}

/// Some of what is declared.
#[derive(Clone, Copy)]
pub enum Group<'a> {
    Units,
    /// What a package declares.
    Package(&'a str),
    /// The tasks of a unit.
    Tasks(&'a str),
    /// The objects of a unit.
    Objects(&'a str),
    /// Those that other units see.
    Shown(&'a str),
    /// The operations of a protected unit, behind its package.
    Operations(&'a str, &'a str),
    /// Those that others call.
    Called(&'a str, &'a str),
    /// Its operations and components.
    Members(&'a str, &'a str),
    /// The parameters of an operation, behind its package and its protected unit.
    Parameters(&'a str, &'a str, &'a str),
    /// What is seen in a package, a protected unit or a task, and an operation.
    Seen(&'a str, &'a str, &'a str),
}

impl<'a> Group<'a> {
    /// What is seen from a word.
    pub fn seen(around: &Around<'a>) -> Group<'a> {
        Group::Seen(around.unit, around.home, around.operation)
    }

    // Whether a declaration is one of it.
    fn has(&self, item: &Declared<'_>) -> bool {
        match self {
            Group::Units => item.sort == Sort::Unit,
            Group::Package(unit) => item.is_of_package(unit),
            Group::Tasks(unit) => item.sort == Sort::Task && item.is_of_package(unit),
            Group::Objects(unit) => item.is_object() && item.is_of_package(unit),
            Group::Shown(unit) => {
                !item.is_hidden && item.is_object() && item.is_of_package(unit)
            }
            Group::Operations(unit, home) => {
                item.sort != Sort::Component && item.is_member(unit, home)
            }
            Group::Called(unit, home) => {
                !item.is_hidden && item.sort != Sort::Component && item.is_member(unit, home)
            }
            Group::Members(unit, home) => item.is_member(unit, home),
            Group::Parameters(unit, home, operation) => {
                item.is_parameter_of(unit, home, operation)
            }
            Group::Seen(unit, home, operation) => rank(item, unit, home, operation) > 0,
        }
    }
}

// What a word declares that such words stand around.
#[derive(Clone, Copy)]
struct Declaring {
    words: &'static str,
    sort: Sort,
}

// What stands in a package.
const OUTER: [Declaring; 4] = [
    Declaring {
        words: "package ^_",
        sort: Sort::Unit,
    },
    Declaring {
        words: "task ^_",
        sort: Sort::Task,
    },
    Declaring {
        words: "protected ^_",
        sort: Sort::Protected,
    },
    Declaring {
        words: "protected type ^_",
        sort: Sort::Protected,
    },
];

// What may stand anywhere.
const INNER: [Declaring; 2] = [
    Declaring {
        words: "subtype ^_",
        sort: Sort::Subtype,
    },
    Declaring {
        words: "for ^_ in",
        sort: Sort::LoopParameter,
    },
];

// What stands in the declaration of a protected unit.
const OPERATIONS: [Declaring; 3] = [
    Declaring {
        words: "function ^_",
        sort: Sort::Function,
    },
    Declaring {
        words: "procedure ^_",
        sort: Sort::Procedure,
    },
    Declaring {
        words: "entry ^_",
        sort: Sort::Entry,
    },
];

// What a word declares by the words around it.
fn sort_among(declarings: &[Declaring], words: &Words<'_, '_>) -> Option<Sort> {
    for declaring in declarings {
        if words.fit(declaring.words) {
            return Some(declaring.sort);
        }
    }
    None
}

// How many words behind an identifier the colon stands of the list that it is in, if it is in one.
fn colon_behind(words: &Words<'_, '_>) -> Option<usize> {
    for count in 0..64usize {
        let next = count.saturating_mul(2).saturating_add(1);
        if words.is(next, ":") {
            return Some(next);
        }
        if !words.is(next, ",") {
            return None;
        }
    }
    None
}

// What a list of identifiers declares, of which a colon stands so many words behind.
fn sort_of_list(words: &Words<'_, '_>, colon: usize, around: &Around<'_>) -> Sort {
    let behind = colon.saturating_add(1);
    if around.parentheses > 0 {
        let is_written = words.is(behind, "out") || words.is(behind.saturating_add(1), "out");
        return if is_written {
            Sort::Parameter
        } else {
            Sort::Given
        };
    }
    if words.is(behind, "constant") {
        return Sort::Constant;
    }
    if around.is_specification() {
        return Sort::Component;
    }
    if around.home.is_empty() {
        return Sort::Object;
    }
    Sort::Variable
}

/// The subtype or type of a list whose colon stands so many words behind: the last part of its name.
pub fn mark_of_list<'a>(words: &Words<'_, 'a>, colon: usize) -> &'a str {
    let mut behind = colon.saturating_add(1);
    for _ in 0..2 {
        if is_listed(&["constant", "in", "out"], words.word(behind)) {
            behind = behind.saturating_add(1);
        }
    }
    for _ in 0..2 {
        if words.is(behind.saturating_add(1), ".") {
            behind = behind.saturating_add(2);
        }
    }
    words.word(behind)
}

// What a word declares as part of what is around it, with its mark.
fn declared_as<'a>(words: &Words<'_, 'a>, around: &Around<'a>) -> Option<(Sort, &'a str)> {
    if let Some(sort) = sort_among(&INNER, words) {
        return Some((sort, ""));
    }
    if !around.is_body {
        if let Some(sort) = sort_among(&OPERATIONS, words) {
            return Some((sort, ""));
        }
    }
    let colon = colon_behind(words)?;
    Some((
        sort_of_list(words, colon, around),
        mark_of_list(words, colon),
    ))
}

// What a word declares in a package, with its mark.
fn outer<'a>(words: &Words<'_, 'a>) -> Option<(Sort, &'a str)> {
    let sort = sort_among(&OUTER, words)?;
    Some((sort, either(words.was(1, "type"), "type", "")))
}

// What a word declares, in the text that is explained or another.
fn declaration<'a>(
    words: &Words<'_, 'a>,
    around: &Around<'a>,
    is_own: bool,
) -> Option<Declared<'a>> {
    let name = words.word(0);
    if !is_identifier(name) || is_listed(&["body", "type"], name) {
        return None;
    }
    let outer = outer(words);
    let is_outer = outer.is_some();
    let (sort, mark) = match outer {
        Some(declared) => declared,
        None => declared_as(words, around)?,
    };
    let is_in_operation = !is_outer && !sort.is_operation();
    Some(Declared {
        unit: around.unit,
        home: either(is_outer, "", around.home),
        operation: either(is_in_operation, around.operation, ""),
        name,
        sort,
        mark,
        at: words.place(0),
        is_hidden: around.is_hidden(),
        is_declaration: is_outer || !around.is_body,
        is_own,
    })
}

// How near a declaration stands to a place in a package, a protected unit or a task, and an operation, if it is seen there: 4 for
// what the operation declares, 3 for a member of the protected unit, 2 for what the package declares, 1 for another unit.
fn rank(item: &Declared<'_>, unit: &str, home: &str, operation: &str) -> usize {
    if !is_same_name(item.unit, unit) {
        return usize::from(item.sort == Sort::Unit);
    }
    if item.home.is_empty() {
        return 2;
    }
    if !is_same_name(item.home, home) {
        return 0;
    }
    if item.operation.is_empty() {
        return 3;
    }
    if is_same_name(item.operation, operation) {
        4
    } else {
        0
    }
}

impl<'a> Known<'a> {
    /// Nothing so far.
    pub fn new(alloc: Global) -> Known<'a> {
        Known {
            items: Vec::new(alloc),
        }
    }

    /// Adds a declaration.
    pub fn add(&mut self, item: Declared<'a>) -> Result<(), AllocError> {
        self.items.push(item)?;
        Ok(())
    }

    /// Adds what a unit text declares, by its words: the text that is explained, or another.
    pub fn add_text(&mut self, tokens: &[Token<'a>], is_own: bool) -> Result<(), AllocError> {
        let mut around = Around::nothing();
        for here in 0..tokens.len() {
            let words = Words::from(tokens, here);
            around.pass(&words);
            if let Some(item) = declaration(&words, &around, is_own) {
                self.add(item)?;
            }
        }
        Ok(())
    }

    /// What has a simple name and stands around a word, before it or behind it: the nearest; of several the last, as a parameter in its
    /// body.
    pub fn standing(&self, name: &str, around: &Around<'_>) -> Option<&Declared<'a>> {
        let mut found = None;
        let mut best = 0;
        for item in self.items.as_slice() {
            let near = rank(item, around.unit, around.home, around.operation);
            if near > 0 && near >= best && item.is_named(name) {
                best = near;
                found = Some(item);
            }
        }
        found
    }

    /// The first of a group that has a name.
    pub fn find(&self, group: Group<'_>, name: &str) -> Option<&Declared<'a>> {
        for item in self.items.as_slice() {
            if item.is_named(name) && group.has(item) {
                return Some(item);
            }
        }
        None
    }

    /// Whether a unit has this name.
    pub fn has_unit(&self, name: &str) -> bool {
        self.find(Group::Units, name).is_some()
    }

    /// What the text that is explained declares at a place.
    pub fn own_at(&self, place: usize) -> Option<&Declared<'a>> {
        for item in self.items.as_slice() {
            if item.at == place && item.is_own {
                return Some(item);
            }
        }
        None
    }

    /// What is declared before a place by the name that is declared there, in the same region.
    pub fn before(&self, place: usize) -> Option<&Declared<'a>> {
        let later = self.own_at(place)?;
        for item in self.items.as_slice() {
            if item.at < later.at && item.is_beside(later) && item.is_named(later.name) {
                return Some(item);
            }
        }
        None
    }

    /// How many there are of a group.
    pub fn count(&self, group: Group<'_>) -> usize {
        let mut count = 0usize;
        for item in self.items.as_slice() {
            if group.has(item) {
                count = count.saturating_add(1);
            }
        }
        count
    }

    /// All names.
    pub fn names(&self, alloc: Global) -> Result<Vec<&'a str>, AllocError> {
        let mut names = Vec::new(alloc);
        for item in self.items.as_slice() {
            names.push(item.name)?;
        }
        Ok(names)
    }

    /// Of the names of a group the one that is nearest to a word; empty where none is near.
    pub fn near(&self, alloc: Global, word: &str, group: Group<'_>) -> Result<&'a str, AllocError> {
        let mut names = Vec::new(alloc);
        for item in self.items.as_slice() {
            if group.has(item) {
                names.push(item.name)?;
            }
        }
        near_among(alloc, word, names.as_slice())
    }

    /// Adds the names of a group to a text, with commas between them, behind what stands before them; of none nothing.
    pub(crate) fn put_names(
        &self,
        text: &mut String,
        before: &str,
        group: Group<'_>,
    ) -> Result<(), AllocError> {
        let mut between = before;
        for item in self.items.as_slice() {
            if group.has(item) {
                text.push_str(between)?;
                text.push_str(item.name)?;
                between = ", ";
            }
        }
        Ok(())
    }
}

/// Of names the one that is nearest to a word; empty where none is near. Err where memory was refused.
pub fn near_among<'a>(alloc: Global, word: &str, names: &[&'a str]) -> Result<&'a str, AllocError> {
    match nearest(alloc, word, names)? {
        Some(name) => Ok(name),
        None => Ok(""),
    }
}
