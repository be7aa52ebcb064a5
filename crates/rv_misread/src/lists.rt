//! Lines that are no lines of a list.

ghost use Rattle.std.specs.Prelude.{◌≡◌, ◌∷◌, [], ℕ, List, Bool, true, option_map, IfErr, IfOk, IfSome};
ghost use Rattle.std.specs.Result.{result_err};
ghost use Rattle.rv_text.specs.Words.{words};
ghost use Rattle.rv_text.specs.Names.{is_identifier};
ghost use Rattle.rv_access.specs.Reading.{line_of, named, phrase_of, windowed};
ghost use Rattle.rv_access.specs.Spelled.{is_star_or, is_dotted};
ghost use Rattle.rv_misread.specs.Lists.{Says, Frames, IsUnframed, fault_of, fault_within, is_verb};

use rv_access::MOST_TICK;
use rv_text::{dotted_parts, is_identifier, is_same_name, natural_of, next_word};

/// Why the words of a line are none of a list. Words count from 0: `allow` or `deny`, the unit, the object, the operation, then a
/// window of four words.
#[derive(Clone, Copy)]
pub enum LineReason {
    /// Word 0 is neither `allow` nor `deny`, or there is no word.
    NoVerb,
    /// There are fewer than four words.
    Missing,
    /// Word 4 isn't `from`.
    NoFrom,
    /// Word 6 isn't `until`.
    NoUntil,
    /// Behind the operation stand fewer or more than the four words of a window.
    NoWindow,
    /// Word 1 is neither an identifier nor `*`.
    NoUnit,
    /// Word 2 is neither `Unit.Object` nor `*`.
    NoObject,
    /// Word 3 is neither an identifier nor `*`.
    NoOperation,
    /// Word 5 is no number of 1 to 18 digits.
    NoFirst,
    /// Word 7 is no number of 1 to 18 digits.
    NoEnd,
    /// Word 7 is past the last tick, 10^15.
    PastLast,
    /// Word 5 isn't below word 7.
    Empty,
}

// Whether a word begins a line.
fn is_verb(word: &str) -> bool
    ensures { result ≡ is_verb word.now }
{
    word == "allow" || word == "deny"
}

// Whether a word is `*` or an identifier.
fn is_name(word: &str) -> bool
    ensures { result ≡ is_star_or is_identifier word.now }
{
    word == "*" || is_identifier(word)
}

// Whether a word is `*` or `Unit.Object`.
fn is_object(word: &str) -> bool
    ensures { result ≡ is_star_or is_dotted word.now }
{
    word == "*" || dotted_parts(word).is_some()
}

// The words of a window.
#[derive(Clone, Copy)]
struct Phrase<'a> {
    from: &'a str,
    opening: &'a str,
    until: &'a str,
    closing: &'a str,
}

// Which of the three names of a line is none.
fn name_reason(unit: &str, object: &str, operation: &str) -> Option<LineReason>
    ensures agrees { (number : ℕ) → (allow : Bool)
        → option_map (fault_of number) result ≡ result_err (named number allow unit.now object.now operation.now) }
    ensures says { (verb : List ℕ) → (more : List (List ℕ))
        → IfSome result (λ reason. Says reason (verb ∷ unit.now ∷ object.now ∷ operation.now ∷ more)) }
{
    if !is_name(unit) {
        return Some(LineReason::NoUnit);
    }
    if !is_object(object) {
        return Some(LineReason::NoObject);
    }
    if !is_name(operation) {
        return Some(LineReason::NoOperation);
    }
    None
}

// The words of a window, or why the words behind an operation are none.
fn phrase_of(text: &str) -> Result<Phrase<'_>, LineReason>
    ensures phrase { IfOk result (λ p. Frames (words text.now)
        (record { from = p.from.now; opening = p.opening.now; until = p.until.now; closing = p.closing.now })) }
    ensures reason { IfErr result (λ reason. IsUnframed reason (words text.now)) }
    ensures says { (verb : List ℕ) → (unit : List ℕ) → (object : List ℕ) → (operation : List ℕ)
        → IfErr result (λ reason. Says reason (verb ∷ unit ∷ object ∷ operation ∷ words text.now)) }
{
    let Some((from, rest)) = next_word(text) else {
        return Err(LineReason::NoWindow);
    };
    if !is_same_name(from, "from") {
        return Err(LineReason::NoFrom);
    }
    let Some((opening, rest)) = next_word(rest) else {
        return Err(LineReason::NoWindow);
    };
    let Some((until, rest)) = next_word(rest) else {
        return Err(LineReason::NoWindow);
    };
    if !is_same_name(until, "until") {
        return Err(LineReason::NoUntil);
    }
    let Some((closing, rest)) = next_word(rest) else {
        return Err(LineReason::NoWindow);
    };
    if let Some(_) = next_word(rest) {
        return Err(LineReason::NoWindow);
    }
    Ok(Phrase {
        from,
        opening,
        until,
        closing,
    })
}

// Why two numbers are those of no window.
fn window_reason(opening: &str, closing: &str) -> Option<LineReason>
    ensures agrees { (number : ℕ) → (from : List ℕ) → (until : List ℕ) → option_map (fault_of number) result
        ≡ fault_within number (record { from = from; opening = opening.now; until = until; closing = closing.now }) }
    ensures says { (verb : List ℕ) → (unit : List ℕ) → (object : List ℕ) → (operation : List ℕ) → (from : List ℕ) → (until : List ℕ)
        → IfSome result (λ reason. Says reason
        (verb ∷ unit ∷ object ∷ operation ∷ from ∷ opening.now ∷ until ∷ closing.now ∷ [])) }
{
    let Some(first) = natural_of(opening) else {
        return Some(LineReason::NoFirst);
    };
    let Some(end) = natural_of(closing) else {
        return Some(LineReason::NoEnd);
    };
    if first >= end {
        return Some(LineReason::Empty);
    }
    if end > MOST_TICK {
        return Some(LineReason::PastLast);
    }
    None
}

// Why three names, and the words of a window behind them, are none.
fn windowed_reason(unit: &str, object: &str, operation: &str, window: &str) -> Option<LineReason>
    ensures agrees { (number : ℕ) → (allow : Bool) → option_map (fault_of number) result
        ≡ result_err (windowed number (phrase_of (words window.now)) (named number allow unit.now object.now operation.now)) }
    ensures says { (verb : List ℕ)
        → IfSome result (λ reason. Says reason (verb ∷ unit.now ∷ object.now ∷ operation.now ∷ words window.now)) }
{
    let phrase = match phrase_of(window) {
        Ok(phrase) => phrase,
        Err(reason) => return Some(reason),
    };
    match name_reason(unit, object, operation) {
        Some(reason) => Some(reason),
        None => window_reason(phrase.opening, phrase.closing),
    }
}

// Why the words behind `allow` or `deny` are none of a list.
#[tactic(auto, using(crate::proofs::Windows::as_named))]
fn reason_behind(line: &str) -> Option<LineReason>
    ensures agrees { (verb : List ℕ) → is_verb verb ≡ true
        → option_map (fault_of 1) result ≡ result_err (line_of 1 (verb ∷ words line.now)) }
    ensures says { (verb : List ℕ) → IfSome result (λ reason. Says reason (verb ∷ words line.now)) }
{
    let Some((unit, rest)) = next_word(line) else {
        return Some(LineReason::Missing);
    };
    let Some((object, rest)) = next_word(rest) else {
        return Some(LineReason::Missing);
    };
    let Some((operation, window)) = next_word(rest) else {
        return Some(LineReason::Missing);
    };
    match next_word(window) {
        Some(_) => windowed_reason(unit, object, operation, window),
        None => name_reason(unit, object, operation),
    }
}

/// Why a line is none of a list: the reason is of the fault that `read_line` tells of it, and there is none where that reads a line.
pub fn line_reason(line: &str) -> Option<LineReason>
    ensures agrees { option_map (fault_of 1) result ≡ result_err (line_of 1 (words line.now)) }
    // What it says is so.
    ensures says { IfSome result (λ reason. Says reason (words line.now)) }
{
    let Some((verb, rest)) = next_word(line) else {
        return Some(LineReason::NoVerb);
    };
    if !is_verb(verb) {
        return Some(LineReason::NoVerb);
    }
    reason_behind(rest)
}
