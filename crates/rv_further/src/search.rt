//! Finds further faults.

ghost use Rattle.std.specs.Prelude.{◌≤◌, length, IfOk};

use crate::faults::place_of;
use crate::masks::{Finding, Masked};
use crate::replacing::Place;
use rv_cause::around::Around;
use rv_cause::known::Known;
use rv_cause::words::Words;
use rv_lex::token::Token;
use rv_names::NameFault;
use rv_shape::catalogue::Catalogue;
use std::alloc::{AllocError, Global};

/// How many further faults are found at most.
pub const MOST_FURTHER: usize = 5;

// How many faults are mended at most.
const MOST_TURNS: usize = 16;

// The fault that is found next, where one is mended whose words these are.
fn next<'a>(
    masked: &mut Masked<'a, '_>,
    tokens: &[Token<'a>],
    known: &Known<'a>,
    fault: NameFault,
) -> Result<Option<NameFault>, AllocError> {
    let Some(at) = place_of(fault) else {
        return Ok(None);
    };
    let place = Place {
        words: Words::at(tokens, at),
        around: Around::of(tokens, at),
        known,
    };
    let mends = place.mends(masked.alloc, fault)?;
    for mend in mends.as_slice() {
        match masked.mend(tokens, at, mend)? {
            Finding::Nothing => return Ok(None),
            Finding::Next(found) => return Ok(Some(found)),
            Finding::Own => {}
        }
    }
    Ok(None)
}

// Whether a fault is one of the text itself.
fn is_sure(masked: &Masked<'_, '_>, tokens: &[Token<'_>], fault: NameFault) -> bool {
    match place_of(fault) {
        Some(at) => masked.is_sure(&Words::at(tokens, at)),
        None => false,
    }
}

// Whether the compiler tells this fault of a text as it stands.
fn is_first(masked: &mut Masked<'_, '_>, fault: NameFault) -> Result<bool, AllocError> {
    match masked.first()? {
        Some(found) => Ok(found == fault),
        None => Ok(false),
    }
}

/// Faults of names of a text, of these words, behind its first, which was told of it behind these units; they are in the order of the text.
/// None, where the compiler tells another first fault of it. Err where memory was refused.
pub fn further<'a>(
    alloc: Global,
    text: &'a str,
    tokens: &[Token<'a>],
    catalogue: &Catalogue,
    known: &Known<'a>,
    first: NameFault,
) -> Result<Vec<NameFault>, AllocError>
    ensures few { IfOk result (λ found. length found.items ≤ 5) }
{
    let mut found = Vec::new(alloc);
    let mut masked = Masked::new(alloc, text, catalogue);
    if !is_first(&mut masked, first)? {
        return Ok(found);
    }
    let mut last = first;
    for _turn in 0..MOST_TURNS {
        let Some(fault) = next(&mut masked, tokens, known, last)? else {
            return Ok(found);
        };
        if is_sure(&masked, tokens, fault) {
            if found.len() >= MOST_FURTHER {
                return Ok(found);
            }
            found.push(fault)?;
        }
        last = fault;
    }
    Ok(found)
}
