//! The cause of a fault of what the names of a unit text denote, as the scope at its place has it.

use crate::also::{Also, also_of};
use crate::explanation::{Explanation, of_part};
use crate::members;
use crate::wanted::wanted_types;
use rv_cause::around::Around;
use rv_cause::cases::told;
use rv_cause::cause::Cause;
use rv_cause::known::Known;
use rv_cause::words::Words;
use rv_fault::Part;
use rv_further::further;
use rv_judged::judged::Judged;
use rv_judged::{bodies, elsewhere, names, restrictions, types, unknown, wrong};
use rv_lex::token::Token;
use rv_names::NameFault;
use rv_names::resolve::resolve;
use rv_outline::outline_of;
use rv_restrict::Restriction;
use rv_scope::Table;
use rv_seen::scope_at;
use rv_shape::catalogue::Catalogue;
use rv_static::TypeFault;
use rv_static::fault::Faults;
use rv_tree::UnitTree;
use rv_unit::UnitFault;
use std::alloc::{AllocError, Global};

// A unit text at a place, and what is declared.
#[derive(Clone, Copy)]
pub(crate) struct Seen<'t, 'a, 'k> {
    pub(crate) tokens: &'t [Token<'a>],
    pub(crate) words: Words<'t, 'a>,
    pub(crate) around: Around<'a>,
    pub(crate) known: &'k Known<'a>,
}

pub(crate) const NO_MEMORY: &str = "memory was refused";

// What is said of a word that breaks a restriction.
fn said_of_restriction(restriction: Restriction) -> &'static str {
    match restriction {
        Restriction::NoAbortStatements => {
            "there is no abort statement in the profile Ravenscar (D.7)"
        }
        Restriction::NoRequeueStatements => {
            "there is no requeue statement in the profile Ravenscar (D.7)"
        }
        Restriction::NoSelectStatements => {
            "there is no select statement in the profile Ravenscar (D.7)"
        }
        Restriction::NoRelativeDelay => {
            "a task delays until a time: write delay until Clock + Milliseconds (..) (D.7)"
        }
        Restriction::NoLocalProtectedObjects => {
            "protected objects are declared in the package or its body, not in a block (D.7)"
        }
        Restriction::NoTaskHierarchy => {
            "tasks are declared in the package or its body, not in a block (D.7)"
        }
        Restriction::MaxProtectedEntries => {
            "{1} is a second entry of its protected unit; one is the most (D.7)"
        }
        Restriction::MaxTaskEntries => "{1} is an entry of a task; tasks have none (D.7)",
        Restriction::SimpleBarriers => restrictions::BARRIER,
        Restriction::NoDynamicPriorities => restrictions::PRIORITY,
        Restriction::NoDependence => "this can't be used in the profile Ravenscar (D.13)",
    }
}

// The cause of a broken restriction.
fn of_restriction<'a>(
    alloc: Global,
    seen: &Seen<'_, 'a, '_>,
    judged: &Judged<'_, '_, '_, 'a>,
    restriction: Restriction,
) -> Result<Cause<'a>, AllocError> {
    let words = &seen.words;
    match restriction {
        Restriction::SimpleBarriers => { restrictions::barrier(alloc, words, &seen.around, judged) }
        Restriction::NoDynamicPriorities => {
            Ok(restrictions::dynamic_priority(words, &seen.around))
        }
        Restriction::NoDependence => Ok(restrictions::library_unit(words, &seen.around)),
        _ => Ok(told(words, &seen.around, said_of_restriction(restriction))),
    }
}

// The cause of a name that nothing is declared by.
fn of_unknown<'a>(
    alloc: Global,
    seen: &Seen<'_, 'a, '_>,
    judged: &Judged<'_, '_, '_, 'a>,
) -> Result<Cause<'a>, AllocError> {
    let words = &seen.words;
    if let Some(cause) = members::unknown(words, &seen.around, seen.known) {
        return Ok(cause);
    }
    if let Some(cause) = elsewhere::unknown(seen.tokens, words, &seen.around, judged) {
        return Ok(cause);
    }
    unknown::unknown(alloc, words, &seen.around, judged)
}

// The cause of what can't stand where it does, or has no body.
fn of_wrong<'a>(
    alloc: Global,
    seen: &Seen<'_, 'a, '_>,
    judged: &Judged<'_, '_, '_, 'a>,
) -> Result<Cause<'a>, AllocError> {
    let words = &seen.words;
    match bodies::misspelt(alloc, seen.tokens, words, &seen.around, seen.known)? {
        Some(cause) => Ok(cause),
        None => Ok(wrong::wrong_kind(words, &seen.around, judged)),
    }
}

// The cause of a fault of names.
fn of_names<'a>(
    alloc: Global,
    seen: &Seen<'_, 'a, '_>,
    judged: &Judged<'_, '_, '_, 'a>,
    fault: NameFault,
) -> Result<Cause<'a>, AllocError> {
    let words = &seen.words;
    match fault {
        NameFault::Unknown(_) => of_unknown(alloc, seen, judged),
        NameFault::Duplicate(_) => Ok(names::duplicate(words, &seen.around, seen.known)),
        NameFault::NotVisible(_) => {
            Ok(names::not_visible(seen.tokens, words, &seen.around, judged))
        }
        NameFault::WrongKind(_) => of_wrong(alloc, seen, judged),
        NameFault::EndName(_) => Ok(names::end_name(seen.tokens, words)),
        NameFault::NoMemory => Ok(Cause::plain(0, NO_MEMORY)),
    }
}

// The cause of a fault of types.
fn of_types<'a>(
    alloc: Global,
    judge: &Judge<'_, 'a, '_>,
    seen: &Seen<'_, 'a, '_>,
    judged: &Judged<'_, '_, '_, 'a>,
    fault: TypeFault,
) -> Result<Cause<'a>, AllocError> {
    let words = &seen.words;
    match fault {
        TypeFault::Mismatch(_) => {
            let (operand, whole) = wanted_types(alloc, judge.text, judge.catalogue, words)?;
            Ok(types::mismatch(words, &seen.around, judged, operand, whole))
        }
        TypeFault::NotStatic(_) => Ok(types::not_static(words)),
        TypeFault::ConstantWritten(_) => {
            match members::constant_written(words, judged) {
                Some(cause) => Ok(cause),
                None => Ok(types::constant_written(words, judged)),
            }
        }
        TypeFault::BadMode(_) => Ok(types::bad_mode(words, &seen.around, judged)),
        TypeFault::TooLarge(_) => {
            let table = judge.table(alloc)?;
            Ok(types::too_large(words, judged, &table))
        }
        TypeFault::BadChoice(_) => Ok(types::bad_choice(words)),
        TypeFault::NoMemory => Ok(Cause::plain(0, NO_MEMORY)),
    }
}

/// A unit text seen from a place.
pub(crate) fn seen_at<'t, 'a, 'k>(
    tokens: &'t [Token<'a>],
    known: &'k Known<'a>,
    place: usize,
) -> Seen<'t, 'a, 'k> {
    Seen {
        tokens,
        words: Words::at(tokens, place),
        around: Around::of(tokens, place),
        known,
    }
}

/// A text of these words that derives a tree, over the units that are loaded before it.
#[derive(Clone, Copy)]
pub(crate) struct Judge<'t, 'a, 'k> {
    pub(crate) text: &'a str,
    pub(crate) tokens: &'t [Token<'a>],
    pub(crate) known: &'k Known<'a>,
    pub(crate) tree: &'t UnitTree,
    pub(crate) catalogue: &'t Catalogue,
}

impl<'t, 'a, 'k> Judge<'t, 'a, 'k> {
    // What is known of the declarations of the text, where its names are bound.
    fn table(&self, alloc: Global) -> Result<Table, AllocError> {
        let Ok(named) = resolve(alloc, self.tree, self.catalogue) else {
            return Ok(Table::new(alloc));
        };
        let mut faults = Faults::new();
        let outline = outline_of(alloc, &named, &mut faults)?;
        let (_, table) = outline.into_parts();
        Ok(table)
    }

    // The cause of a fault of what names denote, at a place.
    fn cause(
        &self,
        alloc: Global,
        place: usize,
        fault: UnitFault,
    ) -> Result<Cause<'a>, AllocError> {
        let seen = seen_at(self.tokens, self.known, place);
        let scope = scope_at(alloc, self.tree, self.catalogue, place)?;
        let judged = Judged::at(alloc, &seen.words, &scope, self.known)?;
        match fault {
            UnitFault::Restriction(violation) => {
                of_restriction(alloc, &seen, &judged, violation.restriction)
            }
            UnitFault::Names(fault) => of_names(alloc, &seen, &judged, fault),
            UnitFault::Types(fault) => of_types(alloc, self, &seen, &judged, fault),
            _ => Ok(Cause::plain(0, NO_MEMORY)),
        }
    }
}

// The further faults of names of the text of a part, behind its first.
fn further_of(
    alloc: Global,
    part: &Part<'_>,
    judge: &Judge<'_, '_, '_>,
    first: NameFault,
) -> Result<Vec<Also>, AllocError> {
    let found = further(
        alloc,
        judge.text,
        judge.tokens,
        judge.catalogue,
        judge.known,
        first,
    )?;
    let mut told = Vec::new(alloc);
    for fault in found.as_slice() {
        if let Some(place) = rv_further::place_of(*fault) {
            let cause = judge.cause(alloc, place, UnitFault::Names(*fault))?;
            told.push(also_of(alloc, part, &cause, judge.known)?)?;
        }
    }
    Ok(told)
}

/// What is said of a fault of what names denote in a text, at a place.
pub(crate) fn of_judge<'a>(
    alloc: Global,
    part: &Part<'a>,
    judge: &Judge<'_, '_, '_>,
    place: usize,
    fault: UnitFault,
) -> Result<Explanation<'a>, AllocError> {
    let cause = judge.cause(alloc, place, fault)?;
    let told = of_part(alloc, part, &cause, judge.known)?;
    match fault {
        UnitFault::Names(first) => {
            let also = further_of(alloc, part, judge, first)?;
            Ok(told.with_also(also))
        }
        _ => Ok(told),
    }
}
