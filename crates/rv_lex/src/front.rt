//! Cuts the word at the front of a text.

ghost use Rattle.std.specs.Prelude.{◌≡◌, ◌<◌, ◌≤◌, length, map, take, slice_index, IfOk, IfSome, true, ◌==◌, if◌then◌else◌};
ghost use Rattle.std.specs.Str.{str_eq_ignore_ascii_case};
ghost use Rattle.rv_lex.specs.Characters as spec;
ghost use Rattle.rv_lex.specs.Kinds.{kind_in, kind_in_section, kind_spelled, reserved, compound, simple};
ghost use Rattle.rv_lex.specs.Front as front;

use crate::fault::WordFault;
use crate::kind::{COMPOUND, Kind, RESERVED, SIMPLE};
use crate::literal::{has_single_lines, is_literal};

const MAX_IDENTIFIER: usize = 64;

fn is_word_byte(b: u8) -> bool
    ensures { result ≡ spec.is_word_byte b }
{
    b.is_ascii_alphanumeric() || b == b'_'
}

// The byte there, or 0 past the end.
fn byte(text: &[u8], at: usize) -> u8
    ensures { result ≡ slice_index text.now at }
{
    if at < text.len() { text[at] } else { 0 }
}

// How many letters, digits and underscores stand at the front.
fn run(text: &[u8]) -> usize
    ensures value { result ≡ spec.run text.now }
    ensures within { result ≤ length text.now }
    ensures moves { spec.is_word_byte (slice_index text.now 0) ≡ true → 0 < result }
{
    let mut end = 0;
    while end < text.len() && is_word_byte(text[end]) {
        end += 1;
    }
    end
}

/// How many bytes of separators and comments stand at the front.
#[tactic(auto, unfolding(crate::specs::Characters::gap_len))]
pub(crate) fn gap(text: &[u8]) -> usize
    ensures value { result ≡ spec.gap_len text.now }
    ensures within { result ≤ length text.now }
{
    let mut end = 0;
    let mut is_comment = false;
    while end < text.len() {
        let b = text[end];
        if is_comment {
            is_comment = b != b'\n';
        } else if b == b'-' && byte(text, end + 1) == b'-' {
            is_comment = true;
        } else if !(b == b' ' || (9 <= b && b <= 13)) {
            return end;
        }
        end += 1;
    }
    end
}

// The kind that a table has for the word, upper case being the same as lower case.
fn lookup(mut table: &[(&[u8], Kind)], word: &[u8]) -> Option<Kind>
    ensures { result ≡ kind_in (map (λ e. (e.0.now, e.1)) table.entry.now) word.now }
{
    while let [entry, rest @ ..] = table {
        if same_word(word, entry.0) {
            return Some(entry.1);
        }
        table = rest;
    }
    None
}

fn same_word(a: &[u8], b: &[u8]) -> bool
    ensures { result ≡ str_eq_ignore_ascii_case a.now b.now }
{
    a.eq_ignore_ascii_case(b)
}

// The kind that the section of a letter has for the word.
#[tactic(auto, unfolding(crate::specs::Kinds::kind_in_section))]
fn lookup_section(mut sections: &[(u8, &[(&[u8], Kind)])], letter: u8, word: &[u8]) -> Option<Kind>
    ensures { result ≡ kind_in_section (map (λ s. (s.0, map (λ e. (e.0.now, e.1)) s.1.now)) sections.entry.now) letter word.now }
{
    while let [section, rest @ ..] = sections {
        if section.0 == letter {
            return lookup(section.1, word);
        }
        sections = rest;
    }
    None
}

// The words that begin with another letter aren't looked at.
fn reserved_kind(word: &[u8]) -> Option<Kind>
    ensures { result ≡ kind_spelled reserved word.now }
{
    lookup_section(&RESERVED, byte(word, 0).to_ascii_lowercase(), word)
}

#[tactic(auto, unfolding(crate::specs::Kinds::kind_spelled, crate::specs::Kinds::compound, crate::specs::Kinds::spelling))]
fn compound_kind(word: &[u8]) -> Option<Kind>
    ensures value { result ≡ kind_spelled compound word.now }
    ensures long { IfSome result (λ _. length word.now ≡ 2) }
{
    lookup(&COMPOUND, word)
}

#[tactic(auto, unfolding(crate::specs::Kinds::kind_spelled, crate::specs::Kinds::simple, crate::specs::Kinds::spelling))]
fn simple_kind(word: &[u8]) -> Option<Kind>
    ensures { result ≡ kind_spelled simple word.now }
{
    lookup(&SIMPLE, word)
}

// An identifier or a reserved word.
#[tactic(auto, unfolding(crate::specs::Front::identifier))]
fn identifier(text: &[u8]) -> Result<(Kind, usize), WordFault>
    requires { spec.is_word_byte (slice_index text.now 0) ≡ true }
    ensures value { result ≡ front.identifier text.now }
    ensures within { IfOk result (λ w. w.1 ≤ length text.now) }
    ensures moves { IfOk result (λ w. 0 < w.1) }
{
    let len = run(text);
    let word = &text[..len];
    if len > MAX_IDENTIFIER || !has_single_lines(word) {
        return Err(WordFault::BadIdentifier);
    }
    Ok((reserved_kind(word).unwrap_or(Kind::Identifier), len))
}

// How far the characters of a literal go, with the second part of a based one.
#[tactic(auto, unfolding(crate::specs::Front::literal_len))]
fn literal_len(text: &[u8]) -> usize
    requires { spec.is_word_byte (slice_index text.now 0) ≡ true }
    ensures value { result ≡ front.literal_len text.now }
    ensures within { result ≤ length text.now }
    ensures moves { 0 < result }
{
    let len = run(text);
    if byte(text, len) != b'#' {
        return len;
    }
    let end = len + 1 + run(&text[len + 1..]);
    if byte(text, end) == b'#' {
        end + 1
    } else {
        end
    }
}

// A letter, or the point and digit of a fraction.
fn goes_on(text: &[u8]) -> bool
    ensures { result ≡ front.goes_on text.now }
{
    byte(text, 0).is_ascii_alphabetic() || (byte(text, 0) == b'.' && byte(text, 1).is_ascii_digit())
}

#[tactic(auto, unfolding(crate::specs::Front::literal))]
fn literal(text: &[u8]) -> Result<(Kind, usize), WordFault>
    requires { spec.is_word_byte (slice_index text.now 0) ≡ true }
    ensures value { result ≡ front.literal text.now }
    ensures within { IfOk result (λ w. w.1 ≤ length text.now) }
    ensures moves { IfOk result (λ w. 0 < w.1) }
{
    let len = literal_len(text);
    let (word, after) = text.split_at(len);
    if !is_literal(word) || goes_on(after) {
        return Err(WordFault::BadLiteral);
    }
    Ok((Kind::Literal, len))
}

fn first_bytes(text: &[u8], count: usize) -> &[u8]
    ensures { result.now ≡ take count text.now }
{
    if count < text.len() {
        &text[..count]
    } else {
        text
    }
}

// A delimiter, of two characters where they are one.
#[tactic(auto, unfolding(crate::specs::Front::delimiter))]
fn delimiter(text: &[u8]) -> Result<(Kind, usize), WordFault>
    requires { 0 < length text.now }
    ensures value { result ≡ front.delimiter text.now }
    ensures within { IfOk result (λ w. w.1 ≤ length text.now) }
    ensures moves { IfOk result (λ w. 0 < w.1) }
{
    if byte(text, 0) == b'*' && byte(text, 1) == b'*' {
        return Err(WordFault::BadCharacter);
    }
    if let Some(kind) = compound_kind(first_bytes(text, 2)) {
        return Ok((kind, 2));
    }
    if let Some(kind) = simple_kind(first_bytes(text, 1)) {
        return Ok((kind, 1));
    }
    Err(if text[0] < 128 {
        WordFault::BadCharacter
    } else {
        WordFault::NotAscii
    })
}

/// The kind and the length of the word at the front of a text that begins with no gap.
#[tactic(auto, unfolding(crate::specs::Front::word))]
pub(crate) fn word(text: &[u8]) -> Result<(Kind, usize), WordFault>
    requires { 0 < length text.now }
    ensures value { result ≡ front.word text.now }
    ensures within { IfOk result (λ w. w.1 ≤ length text.now) }
    ensures moves { IfOk result (λ w. 0 < w.1) }
{
    let first = text[0];
    if first.is_ascii_alphabetic() {
        prove!(is_word_byte(first));
        identifier(text)
    } else if first.is_ascii_digit() {
        prove!(is_word_byte(first));
        literal(text)
    } else {
        delimiter(text)
    }
}
