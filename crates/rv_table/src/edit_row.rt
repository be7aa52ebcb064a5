//! What a change of one line of a list makes of a row of marks.

ghost use Rattle.std.specs.Prelude.{◌≡◌, ◌≢◌, ◌<◌, ◌≤◌, ◌+◌, ◌*◌, ℕ, Bool, List, length, slice_index_or};
ghost use Rattle.std.specs.Int.{bit_at};
ghost use Rattle.rv_access.specs.Limits.{most_lines};
ghost use Rattle.rv_access.specs.Words.{Words};
ghost use Rattle.rv_table.specs.Edits.{Brings, CanEdit, edited};
ghost use Rattle.rv_table.specs.Rows.{has, one, IsRow, IsWord, with_first, without};

use crate::edit::Edit;
use crate::row::{Row, WORDS, mark};

// All bits of a word but the last.
const ALL_BUT_LAST: u64 = u64::MAX / 2;

// The last bit of a word.
const LAST: u64 = 1 << 63;

// Takes one mark away.
fn unmark(words: &mut Row, place: usize)
    requires { place < most_lines }
    ensures here { has words.new place ≡ 0 }
    ensures others { (other : ℕ) → other ≢ place → has words.new other ≡ has words.old other }
{
    words[place / 64] &= !(1 << (place % 64));
}

// Whether there is a mark at a place is set anew.
fn put_mark(words: &mut Row, place: usize, is_marked: bool)
    requires { place < most_lines }
    ensures here { has words.new place ≡ one is_marked }
    ensures others { (other : ℕ) → other ≢ place → has words.new other ≡ has words.old other }
{
    if is_marked {
        mark(words, place);
    } else {
        unmark(words, place);
    }
}

// A word whose bits moved up by one, with another for the first.
fn moved_up(word: u64, first: u64) -> u64
    requires { first < 2 }
    ensures first { bit_at result 0 ≡ first }
    ensures others { (bit : ℕ) → bit < 63 → bit_at result (bit + 1) ≡ bit_at word bit }
{
    (word & ALL_BUT_LAST) * 2 + first
}

// A word whose bits moved down by one, with the first of the next word for the last.
fn moved_down(word: u64, next: u64) -> u64
    ensures others { (bit : ℕ) → bit < 63 → bit_at result bit ≡ bit_at word (bit + 1) }
    ensures last { bit_at result 63 ≡ bit_at next 0 }
{
    next % 2 * LAST + word / 2
}

// The bits of one word before a place, and those of another from there on.
fn joined(before: u64, behind: u64, place: usize) -> u64
    requires { place < 64 }
    ensures before { (bit : ℕ) → bit < place → bit_at result bit ≡ bit_at before bit }
    ensures behind { (bit : ℕ) → place ≤ bit → bit < 64 → bit_at result bit ≡ bit_at behind bit }
{
    let mask = u64::MAX << place;
    (before & !mask) | (behind & mask)
}

// The bit that moves into a word where the marks move up by one: the last of the word before, or this one into the first.
fn carried(words: &Row, w: usize, is_marked: bool) -> u64
    requires { w < 8 }
    ensures small { result < 2 }
    ensures bit { result ≡ with_first is_marked words.now (64 * w) }
{
    if w == 0 {
        u64::from(is_marked)
    } else {
        words[w - 1] >> 63
    }
}

// A word of the marks with one before them.
fn word_with_first(words: &Row, w: usize, is_marked: bool) -> u64
    requires { w < 8 }
    ensures { IsWord (with_first is_marked words.now) w result }
{
    moved_up(words[w], carried(words, w, is_marked))
}

// The marks with one before them; the last of 512 falls out.
fn with_first(words: &Row, is_marked: bool) -> Row
    ensures marks { (place : ℕ) → place < most_lines → has result place ≡ with_first is_marked words.now place }
    ensures behind { (place : ℕ) → most_lines ≤ place → has result place ≡ 0 }
{
    let mut row = [0; WORDS];
    for w in 0..WORDS {
        row[w] = word_with_first(words, w, is_marked);
    }
    row
}

// The word behind another, 0 behind the last.
fn next_word(words: &Row, w: usize) -> u64
    requires { w < 8 }
    ensures { result ≡ slice_index_or words.now (w + 1) 0 }
{
    if w + 1 < WORDS { words[w + 1] } else { 0 }
}

// A word of the marks without that of a place.
fn word_without(words: &Row, w: usize, place: usize) -> u64
    requires { w < 8 }
    ensures { IsWord (without place words.now) w result }
{
    if place / 64 > w {
        return words[w];
    }
    let moved = moved_down(words[w], next_word(words, w));
    if place / 64 == w {
        joined(words[w], moved, place % 64)
    } else {
        moved
    }
}

// The marks without that of a place.
fn without(words: &Row, place: usize) -> Row
    ensures marks { (other : ℕ) → other < most_lines → has result other ≡ without place words.now other }
    ensures behind { (other : ℕ) → most_lines ≤ other → has result other ≡ 0 }
{
    let mut row = [0; WORDS];
    for w in 0..WORDS {
        row[w] = word_without(words, w, place);
    }
    row
}

/// Makes the marks of a list of so many lines those of the list after an edit; whether the line that the edit brings is one
/// that the row marks, is given.
pub(crate) fn edit_row(row: &mut Row, edit: Edit<'_>, lines: usize, is_marked: bool)
    requires { CanEdit edit lines }
    ensures { (list : List Words) (passes : Words → Bool) → lines ≡ length list → Brings edit.entry passes is_marked
        → IsRow passes list row.old → IsRow passes (edited edit.entry list) row.new }
{
    match edit {
        Edit::Append(_) => *row = with_first(row, is_marked),
        Edit::Remove(number) => *row = without(row, lines - number),
        Edit::Replace(number, _) => put_mark(row, lines - number, is_marked),
    }
}
