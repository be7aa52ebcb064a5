//! Puts the times of entries beside what is told of them.

ghost use Rattle.std.specs.Prelude.{◌≡◌, ◌++◌, ◌∷◌, OnOk, IfOk, codes, string_bytes, option_map};
ghost use Rattle.std.specs.List.{after_first, slice_split};
ghost use Rattle.rv_text.specs.Numbers.{natural_of};
ghost use Rattle.rv_times.specs.Telling.{field_of, front, in_brackets, is_colon, is_feed, is_of_list, is_space, is_verb, mark, names_entry, time_of, timed, timed_as, timed_if, timed_json, timed_line, timed_lines, timed_word, timed_words};

use crate::times::Times;
use rv_text::natural_of;
use std::alloc::{AllocError, Global};

// A word without the comma or colon at its end, and that.
fn cut(word: &str) -> (&str, &str)
    ensures front { result.0.now ≡ front word.now }
    ensures mark { result.1.now ≡ mark word.now }
{
    let len = word.len();
    if len > 0 && (word.as_bytes()[len - 1] == b',' || word.as_bytes()[len - 1] == b':') {
        return word.split_at(len - 1);
    }
    (word, "")
}

// Puts words between two others.
fn put_between(text: &mut String, before: &str, words: &str, behind: &str) -> Result<(), AllocError>
    ensures { OnOk result (string_bytes text.new ≡ string_bytes text.old ++ (before.now ++ (words.now ++ behind.now))) }
{
    text.push_str(before)?;
    text.push_str(words)?;
    text.push_str(behind)
}

// By when the entry of a number was written, if a word is one and that is known.
fn time_of<'t>(times: &Times<'t>, number: &str) -> Option<&'t str>
    ensures { option_map (λ w. w.now) result ≡ time_of times.now (natural_of number.now) }
{
    match natural_of(number) {
        Some(entry) => times.of(entry),
        None => None,
    }
}

// Puts a time in brackets, if it is known.
fn put_bracket(text: &mut String, time: Option<&str>) -> Result<(), AllocError>
    ensures { OnOk result (string_bytes text.new ≡ string_bytes text.old ++ in_brackets (option_map (λ w. w.now) time.entry)) }
{
    match time {
        Some(words) => put_between(text, " (", words, ")"),
        None => Ok(()),
    }
}

// Puts a time as a field of JSON, if it is known.
fn put_field(text: &mut String, time: Option<&str>) -> Result<(), AllocError>
    ensures { OnOk result (string_bytes text.new ≡ string_bytes text.old ++ field_of (option_map (λ w. w.now) time.entry)) }
{
    match time {
        Some(words) => put_between(text, ",\"time\":\"", words, "\""),
        None => Ok(()),
    }
}

// Puts a word, where it is the number of an entry with its time behind it.
fn put_timed(text: &mut String, times: &Times<'_>, word: &str) -> Result<(), AllocError>
    ensures { OnOk result (string_bytes text.new ≡ string_bytes text.old ++ timed_word times.now word.now) }
{
    let (front, mark) = cut(word);
    text.push_str(front)?;
    put_bracket(text, time_of(times, front))?;
    text.push_str(mark)
}

// Puts a word, with its time where it is an entry's.
fn put_word(
    text: &mut String,
    times: &Times<'_>,
    is_entry: bool,
    word: &str,
) -> Result<(), AllocError>
    ensures { OnOk result (string_bytes text.new ≡ string_bytes text.old ++ timed_if is_entry times.now word.now) }
{
    if is_entry {
        put_timed(text, times, word)
    } else {
        text.push_str(word)
    }
}

// Whether the number of an entry stands behind a word.
fn names_entry(word: &str) -> bool
    ensures { result ≡ names_entry word.now }
{
    word == "entry"
}

// Puts words, each behind a space.
fn put_words(
    text: &mut String,
    times: &Times<'_>,
    is_entry: bool,
    words: &str,
) -> Result<(), AllocError>
    ensures { OnOk result (string_bytes text.new ≡ string_bytes text.old ++ timed_words times.now is_entry (slice_split is_space words.now)) }
{
    text.push_str(" ")?;
    match words.split_once(' ') {
        Some((word, others)) => {
            put_word(text, times, is_entry, word)?;
            put_words(text, times, names_entry(word), others)
        }
        None => put_word(text, times, is_entry, words),
    }
}

// Whether a line of an access list begins with a word.
fn is_verb(word: &str) -> bool
    ensures { result ≡ is_verb word.now }
{
    word == "allow" || word == "deny"
}

// Whether words behind a number are those of a line of an access list.
fn is_of_list(words: &str) -> bool
    ensures { result ≡ is_of_list (slice_split is_space words.now) }
{
    match words.split_once(' ') {
        Some((word, _)) => is_verb(word),
        None => is_verb(words),
    }
}

// Puts a line with times.
fn put_line(text: &mut String, times: &Times<'_>, line: &str) -> Result<(), AllocError>
    ensures { OnOk result (string_bytes text.new ≡ string_bytes text.old ++ timed_line times.now line.now) }
{
    match line.split_once(' ') {
        Some((word, words)) => {
            put_word(text, times, !is_of_list(words), word)?;
            put_words(text, times, names_entry(word), words)
        }
        None => text.push_str(line),
    }
}

// What stands behind the first colon.
fn behind_colon(head: &str) -> &str
    ensures { result.now ≡ after_first is_colon head.now }
{
    match head.split_once(':') {
        Some((_, number)) => number,
        None => "",
    }
}

// Puts the first field of a line of JSON, a time behind it, and the other fields.
fn put_fields(
    text: &mut String,
    head: &str,
    time: Option<&str>,
    fields: &str,
) -> Result<(), AllocError>
    ensures { OnOk result (string_bytes text.new ≡ string_bytes text.old
        ++ (head.now ++ (field_of (option_map (λ w. w.now) time.entry) ++ 44 ∷ fields.now))) }
{
    text.push_str(head)?;
    put_field(text, time)?;
    text.push_str(",")?;
    text.push_str(fields)
}

// Puts a line of JSON with its time.
fn put_json(text: &mut String, times: &Times<'_>, line: &str) -> Result<(), AllocError>
    ensures { OnOk result (string_bytes text.new ≡ string_bytes text.old ++ timed_json times.now line.now) }
{
    match line.split_once(',') {
        Some((head, fields)) => {
            put_fields(text, head, time_of(times, behind_colon(head)), fields)
        }
        None => text.push_str(line),
    }
}

// Puts a line, of JSON or of words.
fn put_as(text: &mut String, times: &Times<'_>, is_json: bool, line: &str) -> Result<(), AllocError>
    ensures { OnOk result (string_bytes text.new ≡ string_bytes text.old ++ timed_as is_json times.now line.now) }
{
    if is_json {
        put_json(text, times, line)
    } else {
        put_line(text, times, line)
    }
}

// Puts lines, each behind a line feed.
fn put_lines(
    text: &mut String,
    times: &Times<'_>,
    is_json: bool,
    lines: &str,
) -> Result<(), AllocError>
    ensures { OnOk result (string_bytes text.new ≡ string_bytes text.old ++ timed_lines is_json times.now (slice_split is_feed lines.now)) }
{
    let mut rest = lines;
    while let Some((line, others)) = rest.split_once('\n') {
        text.push_str("\n")?;
        put_as(text, times, is_json, line)?;
        rest = others;
    }
    text.push_str("\n")?;
    put_as(text, times, is_json, rest)
}

// Puts a text.
fn put_all(
    text: &mut String,
    times: &Times<'_>,
    is_json: bool,
    told: &str,
) -> Result<(), AllocError>
    ensures { OnOk result (string_bytes text.new ≡ string_bytes text.old ++ timed is_json times.now told.now) }
{
    match told.split_once('\n') {
        Some((line, lines)) => {
            put_as(text, times, is_json, line)?;
            put_lines(text, times, is_json, lines)
        }
        None => put_as(text, times, is_json, told),
    }
}

/// What is told of a journal, as lines of JSON or of words, with the time of each entry that it names behind its number. Err where
/// memory was refused.
pub fn timed(
    alloc: Global,
    told: &str,
    times: &Times<'_>,
    is_json: bool,
) -> Result<String, AllocError>
    ensures { IfOk result (λ text. string_bytes text ≡ timed is_json times.now told.now) }
{
    let mut text = String::new(alloc);
    put_all(&mut text, times, is_json, told)?;
    Ok(text)
}
