//! Reading a list from its text.

ghost use Rattle.std.specs.Prelude.{◌≡◌, IsTrue, List, Ok, IfOk, MatchResult};
ghost use Rattle.rv_text.specs.Words.{words};
ghost use Rattle.rv_access.specs.Words.{Words};
ghost use Rattle.rv_access.specs.Listed.{IsListOf};
ghost use Rattle.rv_access.specs.Reading.{Gives, Fails, named, worded, phrase_of, within, line_of, step, list_of, is_meant};
ghost use Rattle.rv_access.specs.Windows.{is_framed};

use crate::fault::ListFault;
use crate::line::Line;
use crate::list::AccessList;
use crate::window::{Phrase, Window};
use rv_text::{dotted_parts, has_words, is_identifier, next_line, next_word};
use std::alloc::Global;

/// The most lines that a list has; the limit is our own.
pub const MOST_LINES: usize = 512;

// A line of these words, if each is `*` or a name of its form.
fn named(
    alloc: Global,
    number: usize,
    allow: bool,
    unit: &str,
    object: &str,
    operation: &str,
) -> Result<Line, ListFault>
    ensures { Gives result (named number allow unit.now object.now operation.now) }
{
    if (unit == "*" || is_identifier(unit))
        && (object == "*" || dotted_parts(object).is_some())
        && (operation == "*" || is_identifier(operation))
    {
        return Ok(Line::new(alloc, allow, unit, object, operation)?);
    }
    Err(ListFault::BadName(number))
}

// A line of these words, the first of which says whether it allows.
fn worded(
    alloc: Global,
    number: usize,
    verb: &str,
    unit: &str,
    object: &str,
    operation: &str,
) -> Result<Line, ListFault>
    ensures { Gives result (worded number verb.now unit.now object.now operation.now) }
{
    if verb == "allow" {
        return named(alloc, number, true, unit, object, operation);
    }
    if verb == "deny" {
        return named(alloc, number, false, unit, object, operation);
    }
    Err(ListFault::BadWord(number))
}

// The four words that stand there, if there are no more.
fn phrase_of(text: &str) -> Option<Phrase<'_>>
    ensures { result ≡ phrase_of (words text.now) }
{
    let Some((from, rest)) = next_word(text) else {
        return None;
    };
    let Some((opening, rest)) = next_word(rest) else {
        return None;
    };
    let Some((until, rest)) = next_word(rest) else {
        return None;
    };
    let Some((closing, rest)) = next_word(rest) else {
        return None;
    };
    if let Some(_) = next_word(rest) {
        return None;
    }
    Some(Phrase {
        from,
        opening,
        until,
        closing,
    })
}

// The line within the window of these words, if its numbers are those of one.
fn within(alloc: Global, number: usize, words: &Phrase, line: Line) -> Result<Line, ListFault>
    requires { IsTrue (is_framed words.now) }
    ensures { Gives result (within number words.now line) }
{
    let Some((first, end)) = words.ticks() else {
        return Err(ListFault::BadWindow(number));
    };
    let window = Window::new(alloc, words, first, end)?;
    Ok(line.within(window))
}

// The line of a list that stands on the line of this number.
fn line_of(alloc: Global, number: usize, text: &str) -> Result<Line, ListFault>
    ensures { Gives result (line_of number (words text.now)) }
{
    let Some((verb, rest)) = next_word(text) else {
        return Err(ListFault::BadWord(number));
    };
    let Some((unit, rest)) = next_word(rest) else {
        return Err(ListFault::BadWord(number));
    };
    let Some((object, rest)) = next_word(rest) else {
        return Err(ListFault::BadWord(number));
    };
    let Some((operation, rest)) = next_word(rest) else {
        return Err(ListFault::BadWord(number));
    };
    let Some(_) = next_word(rest) else {
        return worded(alloc, number, verb, unit, object, operation);
    };
    let Some(window) = phrase_of(rest) else {
        return Err(ListFault::BadWord(number));
    };
    if !window.is_framed() {
        return Err(ListFault::BadWord(number));
    }
    let line = worded(alloc, number, verb, unit, object, operation)?;
    within(alloc, number, &window, line)
}

// Whether a line is neither a comment nor blank.
fn is_meant(line: &str) -> bool
    ensures { result ≡ is_meant line.now }
{
    match line.as_bytes() {
        [b'#', ..] => false,
        _ => has_words(line),
    }
}

// Reads one more line.
fn add_line(
    alloc: Global,
    list: &mut AccessList,
    number: usize,
    line: &str,
) -> Result<(), ListFault>
    ensures { MatchResult result (λ _. step number list.old line.now ≡ Ok list.new) (λ e. Fails e (step number list.old line.now)) }
{
    if !is_meant(line) {
        return Ok(());
    }
    if list.len() >= MOST_LINES {
        return Err(ListFault::TooMany(number));
    }
    let more = line_of(alloc, number, line)?;
    list.push(more)?;
    Ok(())
}

// The list that a text holds, or its first fault.
fn list_of(alloc: Global, text: &str) -> Result<AccessList, ListFault>
    ensures { Gives result (list_of text.now) }
{
    let mut list = AccessList::new(alloc);
    let mut rest = text;
    let mut number = 1;
    while let Some((line, after)) = next_line(rest) {
        add_line(alloc, &mut list, number, line)?;
        number += 1;
        rest = after;
    }
    Ok(list)
}

/// The list that a text holds: each of its lines but blank ones and comments is a line of the list,
/// `allow` or `deny` and three words, then a window `from A until B` or nothing, and there are at most 512. Err names
/// the first bad line, or is NoMemory where memory was refused.
pub fn read_list(alloc: Global, text: &str) -> Result<AccessList, ListFault>
    // What is read stands there.
    ensures found { IfOk result (λ list. IsListOf text.now list) }
    // What stands there is read, unless memory runs out.
    ensures only { (list : List Words) → IsListOf text.now list → Gives result (Ok list) }
    // Which fault it is.
    ensures fault { Gives result (list_of text.now) }
{
    list_of(alloc, text)
}

/// The one line that a text of four or eight words is, as an operator gives it. Err names what is wrong, at
/// line 1, or is NoMemory where memory was refused.
pub fn read_line(alloc: Global, text: &str) -> Result<Line, ListFault>
    ensures { Gives result (line_of 1 (words text.now)) }
{
    line_of(alloc, 1, text)
}
