//! A row of marks, one for each line of a list, the last line first: the first mark that two rows share is the last line
//! that both are of.

ghost use Rattle.std.specs.Prelude.{◌≡◌, ◌≢◌, ◌<◌, ◌≤◌, ◌==◌, ℕ, Bool, List, length, min, bit_and, IfSome, IfNone};
ghost use Rattle.rv_access.specs.Limits.{most_lines};
ghost use Rattle.rv_access.specs.Lines as listed;
ghost use Rattle.rv_access.specs.Words.{Words};
ghost use Rattle.rv_table.specs.Rows.{has, IsRow, Lowest, is_allowing, is_open_at, of_caller, of_site, passes_both};
ghost use Rattle.rv_text.specs.Names.{dotted};

use rv_access::{AccessList, MOST_LINES, fits, fits_object};

/// How many words a row has: a bit for each line that a list may have.
pub(crate) const WORDS: usize = MOST_LINES / 64;

/// The marks of the lines of a list.
pub(crate) type Row = [u64; WORDS];

/// Sets one mark.
pub(crate) fn mark(words: &mut Row, place: usize)
    requires { place < most_lines }
    ensures here { has words.new place ≡ 1 }
    ensures others { (other : ℕ) → other ≢ place → has words.new other ≡ has words.old other }
{
    words[place / 64] |= 1 << (place % 64);
}

/// Whether there is a mark.
pub(crate) fn is_marked(words: &Row, place: usize) -> bool
    requires { place < most_lines }
    ensures { result ≡ (has words.now place == 1) }
{
    words[place / 64] >> (place % 64) & 1 == 1
}

// The lowest place that is marked in both words.
fn lowest_common(ours: u64, theirs: u64) -> Option<usize>
    ensures some { IfSome result (λ place. Lowest ours theirs place) }
    ensures none { IfNone result (bit_and ours theirs ≡ 0) }
{
    let both = ours & theirs;
    if both == 0 {
        return None;
    }
    Some(both.trailing_zeros() as usize)
}

// The first place that is marked in both rows.
fn first_common(ours: &Row, theirs: &Row) -> Option<usize>
    ensures some { IfSome result (λ k. (k < most_lines) × (has ours.now k ≡ 1) × (has theirs.now k ≡ 1)) }
    ensures first { IfSome result (λ k. (j : ℕ) → j < k → min (has ours.now j) (has theirs.now j) ≡ 0) }
    ensures none { IfNone result ((j : ℕ) → j < most_lines → min (has ours.now j) (has theirs.now j) ≡ 0) }
{
    let mut w: usize = 0;
    while w < WORDS {
        if let Some(place) = lowest_common(ours[w], theirs[w]) {
            return Some(64 * w + place);
        }
        w += 1;
    }
    None
}

/// The marks that two rows share.
pub(crate) fn shared(ours: &Row, theirs: &Row) -> Row
    ensures { (list : List Words) (first second : Words → Bool) → length list ≤ most_lines
        → IsRow first list ours.now → IsRow second list theirs.now → IsRow (passes_both first second) list result }
{
    let mut words = *ours;
    let mut w: usize = 0;
    while w < WORDS {
        words[w] &= theirs[w];
        w += 1;
    }
    words
}

/// The number of the last of so many lines that has a mark in both rows, or 0 where there is none: ours has the lines
/// of a caller that are open at a tick, theirs those of an operation.
pub(crate) fn deciding(ours: &Row, theirs: &Row, lines: usize) -> usize
    ensures { (list : List Words) (unit object operation : List ℕ) (tick : ℕ) → lines ≡ length list → length list ≤ most_lines
        → IsRow (passes_both (of_caller unit) (is_open_at tick)) list ours.now → IsRow (of_site object operation) list theirs.now
        → result ≡ listed.decides list unit object operation tick }
{
    match first_common(ours, theirs) {
        Some(place) => lines.saturating_sub(place),
        None => 0,
    }
}

/// The lines that are of a caller.
pub(crate) fn caller_row(list: &AccessList, caller: &str) -> Row
    requires { length list.now ≤ most_lines }
    ensures { IsRow (of_caller caller.now) list.now result }
{
    let lines = list.lines();
    let mut words = [0; WORDS];
    for i in 0..lines.len() {
        if fits(lines[i].unit(), caller) {
            mark(&mut words, lines.len() - 1 - i);
        }
    }
    words
}

/// The lines that are of an operation of the object `unit.object`.
pub(crate) fn site_row(list: &AccessList, unit: &str, object: &str, operation: &str) -> Row
    requires { length list.now ≤ most_lines }
    ensures { IsRow (of_site (dotted unit.now object.now) operation.now) list.now result }
{
    let lines = list.lines();
    let mut words = [0; WORDS];
    for i in 0..lines.len() {
        if fits(lines[i].operation(), operation) && fits_object(lines[i].object(), unit, object) {
            mark(&mut words, lines.len() - 1 - i);
        }
    }
    words
}

/// The lines that are open at a tick.
pub(crate) fn open_row(list: &AccessList, tick: u64) -> Row
    requires { length list.now ≤ most_lines }
    ensures { IsRow (is_open_at tick) list.now result }
{
    let lines = list.lines();
    let mut words = [0; WORDS];
    for i in 0..lines.len() {
        if lines[i].is_open(tick) {
            mark(&mut words, lines.len() - 1 - i);
        }
    }
    words
}

/// The lines that allow.
pub(crate) fn allowing_row(list: &AccessList) -> Row
    requires { length list.now ≤ most_lines }
    ensures { IsRow is_allowing list.now result }
{
    let lines = list.lines();
    let mut words = [0; WORDS];
    for i in 0..lines.len() {
        if lines[i].allows() {
            mark(&mut words, lines.len() - 1 - i);
        }
    }
    words
}
