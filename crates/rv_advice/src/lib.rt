//! What is told of a command that is refused for what it says itself: which numbers it takes, and who takes its word. What is told
//! decides nothing.
#![tactic(auto)]

ghost use Rattle.std.specs.Prelude.{◌≡◌, IfOk, option_map, string_bytes};
ghost use Rattle.rv_access.specs.Changes.{changed};
ghost use Rattle.rv_advice.specs.Advice.{change_advice, console_advice, is_amiss, note, ticks_advice, word_advice};

use rv_access::{AccessList, Change, MOST_LINES};
use std::alloc::{AllocError, Global};

// The most ticks at once.
const MOST_TICKS: i64 = 1_000_000;

// A note, as a line. Err where memory was refused.
fn noted(alloc: Global, words: &str) -> Result<Option<String>, AllocError>
    ensures { IfOk result (λ text. option_map string_bytes text ≡ Some (note words.now)) }
{
    Ok(Some(format!(in alloc; "note: {words}\n")?))
}

/// What is told of `tick N`, where its answer is `misuse`. Err where memory was refused.
pub fn ticks_advice(alloc: Global, ticks: i64) -> Result<Option<String>, AllocError>
    ensures { IfOk result (λ text. option_map string_bytes text ≡ ticks_advice ticks) }
{
    if 1 <= ticks && ticks <= MOST_TICKS {
        return Ok(None);
    }
    noted(alloc, "tick takes 1 to 1000000 ticks")
}

// Whether a change names a line that isn't there, or brings one for which there is no room.
fn is_amiss(list: &AccessList, change: &Change) -> bool
    ensures { result ≡ is_amiss list.now change.now }
{
    match change {
        Change::Whole(_) => false,
        Change::Append(_) => list.len() >= MOST_LINES,
        Change::Remove(number) => *number == 0 || *number > list.len(),
        Change::Replace(number, _) => *number == 0 || *number > list.len(),
    }
}

/// What is told of a change of a list, where its answer is `badline`. Err where memory was refused.
pub fn change_advice(
    alloc: Global,
    list: &AccessList,
    change: &Change,
) -> Result<Option<String>, AllocError>
    ensures { IfOk result (λ text. option_map string_bytes text ≡ change_advice list.now change.now) }
{
    if !is_amiss(list, change) {
        return Ok(None);
    }
    let lines = list.len();
    let words = format!(in alloc; "the list has {lines} lines")?;
    noted(alloc, words.as_str())
}

// What is told of a word of the console.
fn console_advice(alloc: Global, word: &str, is_there: bool) -> Result<Option<String>, AllocError>
    ensures { IfOk result (λ text. option_map string_bytes text ≡ Some (note (console_advice word.now is_there))) }
{
    let words = if is_there {
        format!(in alloc; "{word} takes no word behind it")?
    } else {
        format!(in alloc; "only run --console takes {word}")?
    };
    noted(alloc, words.as_str())
}

/// What is told of the first word of a line that is no command, where there is a console or none. Err where memory was refused.
pub fn word_advice(
    alloc: Global,
    word: &str,
    has_console: bool,
) -> Result<Option<String>, AllocError>
    ensures { IfOk result (λ text. option_map string_bytes text ≡ word_advice word.now has_console) }
{
    if word == "raise" {
        return noted(alloc, "raise takes the number of a line, 0 to 9");
    }
    if word == "journal" {
        return noted(alloc, "journal takes the number of an entry, from 1 on");
    }
    if word == "help" || word == "list" || word == "status" {
        return console_advice(alloc, word, has_console);
    }
    Ok(None)
}
