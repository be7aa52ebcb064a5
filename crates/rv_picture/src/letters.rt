//! A timeline as rows of letters.

ghost use Rattle.std.specs.Prelude.{◌≡◌, ◌++◌, ◌/◌, ◌≤◌, IfOk, OnOk, length, string_bytes, suc, take};
ghost use Rattle.rv_picture.specs.Letters.{any_at, block_text, blocks_text, cells, chunk, head_text, is_at, is_last, is_of_kind, key, letter_at, letters_in, letters_of, letters_text, letters_with, row_in, row_text, rows_text, ruler};

use crate::bar::{Bar, Frame, Kind, Moment, in_frame, within};
use crate::lane::{Lane, lane_name, lanes, of_lane};
use rv_shape::catalogue::Catalogue;
use std::alloc::{AllocError, Global};

// How many entries stand in a row; below, `chunk` and the number of rows have it too.
const COLUMNS: usize = 60;

// How a bar stands at an entry.
#[derive(Clone, Copy, Drop)]
enum Mark {
    // It is a refusal there.
    Refused,
    // A body begins there.
    Begins,
    // A body ends there.
    Ends,
    // A body is under way there.
    Lasts,
    // A wait is.
    Waits,
    // A delay is.
    Delayed,
}

// Whether the entry of a number is the last one, if there is one.
fn is_last(last: Option<usize>, entry: usize) -> bool
    ensures { result ≡ is_last last entry }
{
    match last {
        Some(last) => last == entry,
        None => false,
    }
}

// Whether a mark is of a kind of bars.
fn is_of_kind(mark: Mark, kind: Kind) -> bool
    ensures { result ≡ is_of_kind mark kind }
{
    match kind {
        Kind::Refused => matches!(mark, Mark::Refused),
        Kind::Body => matches!(mark, Mark::Begins | Mark::Ends | Mark::Lasts),
        Kind::Wait => matches!(mark, Mark::Waits),
        Kind::Delay => matches!(mark, Mark::Delayed),
    }
}

// Whether a bar stands so at the entry of a number.
fn is_at(mark: Mark, bar: &Bar, entry: usize) -> bool
    ensures { result ≡ is_at mark entry bar.now }
{
    if !is_of_kind(mark, bar.kind) || !bar.covers(entry) {
        return false;
    }
    match mark {
        Mark::Begins => bar.begun.number == entry,
        Mark::Ends => is_last(bar.last, entry),
        Mark::Refused | Mark::Lasts | Mark::Waits | Mark::Delayed => true,
    }
}

// Whether one of these bars does.
fn any_at(mark: Mark, bars: &[Bar], entry: usize) -> bool
    ensures { result ≡ any_at mark bars.now entry }
{
    for bar in bars {
        if is_at(mark, bar, entry) {
            return true;
        }
    }
    false
}

// The letter of these bars at the entry of a number.
fn letter_at(bars: &[Bar], entry: usize) -> &'static str
    ensures { result.now ≡ letter_at bars.now entry }
{
    if any_at(Mark::Refused, bars, entry) {
        return "x";
    }
    if any_at(Mark::Begins, bars, entry) {
        return "[";
    }
    if any_at(Mark::Ends, bars, entry) {
        return "]";
    }
    if any_at(Mark::Lasts, bars, entry) {
        return "=";
    }
    if any_at(Mark::Waits, bars, entry) {
        return "w";
    }
    if any_at(Mark::Delayed, bars, entry) {
        return "d";
    }
    " "
}

// Puts the letters of these bars at entries.
fn put_cells(text: &mut String, bars: &[Bar], block: &[Moment]) -> Result<(), AllocError>
    ensures { OnOk result (string_bytes text.new ≡ string_bytes text.old ++ cells bars.now block.now) }
{
    for moment in block {
        text.push_str(letter_at(bars, moment.number))?;
    }
    Ok(())
}

// Puts the last digits of the numbers of entries.
fn put_ruler(text: &mut String, block: &[Moment]) -> Result<(), AllocError>
    ensures { OnOk result (string_bytes text.new ≡ string_bytes text.old ++ ruler block.now) }
{
    for moment in block {
        let digit = moment.number % 10;
        write!(text, "{digit}")?;
    }
    Ok(())
}

// Puts the row of a lane that has these bars at entries, if it has any.
fn put_row(text: &mut String, bars: &[Bar], block: &[Moment], name: &str) -> Result<(), AllocError>
    ensures { OnOk result (string_bytes text.new ≡ string_bytes text.old ++ row_text bars.now block.now name.now) }
{
    text.push_str("|")?;
    put_cells(text, bars, block)?;
    write!(text, "| {name}\n")
}

// Puts the row of a lane, if one of these bars is in it.
fn put_row_in(
    alloc: Global,
    text: &mut String,
    catalogue: &Catalogue,
    bars: &[Bar],
    block: &[Moment],
    lane: &Lane,
) -> Result<(), AllocError>
    ensures { OnOk result (string_bytes text.new ≡ string_bytes text.old ++ row_in catalogue.now bars.now block.now lane.now) }
{
    let mine = of_lane(alloc, lane.actor, lane.object, bars)?;
    if mine.as_slice().is_empty() {
        return Ok(());
    }
    let name = lane_name(alloc, catalogue, lane.actor, lane.object)?;
    put_row(text, mine.as_slice(), block, name.as_str())
}

// Puts the rows of lanes.
fn put_rows(
    alloc: Global,
    text: &mut String,
    catalogue: &Catalogue,
    bars: &[Bar],
    block: &[Moment],
    lanes: &[Lane],
) -> Result<(), AllocError>
    ensures { OnOk result (string_bytes text.new ≡ string_bytes text.old ++ rows_text catalogue.now bars.now block.now lanes.now) }
{
    for lane in lanes {
        put_row_in(alloc, text, catalogue, bars, block, lane)?;
    }
    Ok(())
}

// Puts from which entry and tick to which.
fn put_head(text: &mut String, first: &Moment, last: &Moment) -> Result<(), AllocError>
    ensures { OnOk result (string_bytes text.new ≡ string_bytes text.old ++ head_text first.now last.now) }
{
    let from = first.number;
    let to = last.number;
    let start = first.tick;
    let end = last.tick;
    write!(text, "entries {from} to {to}, ticks {start} to {end}\n")
}

// Puts a block: its head, the digits of its entries, and the rows of the lanes that have a bar there.
fn put_block(
    alloc: Global,
    text: &mut String,
    catalogue: &Catalogue,
    lanes: &[Lane],
    bars: &[Bar],
    block: &[Moment],
) -> Result<(), AllocError>
    ensures { OnOk result (string_bytes text.new ≡ string_bytes text.old ++ block_text catalogue.now lanes.now bars.now block.now) }
{
    let Some(first) = block.first() else {
        return Ok(());
    };
    let Some(last) = block.last() else {
        return Ok(());
    };
    let shown = within(alloc, block, bars)?;
    put_head(text, first, last)?;
    text.push_str("|")?;
    put_ruler(text, block)?;
    text.push_str("|\n")?;
    put_rows(alloc, text, catalogue, shown.as_slice(), block, lanes)
}

// The first entries, as many as stand in a row.
fn front(moments: &[Moment]) -> &[Moment]
    ensures { result.now ≡ take 60 moments.now }
{
    if moments.len() <= COLUMNS {
        return moments;
    }
    let (front, _) = moments.split_at(COLUMNS);
    front
}

// The entries of the block of a number, from 0.
fn chunk(moments: &[Moment], number: usize) -> &[Moment]
    requires { number ≤ length moments.now / 60 }
    ensures { result.now ≡ chunk number moments.now }
{
    let (_, rest) = moments.split_at(number * COLUMNS);
    front(rest)
}

// Puts the block of a number, from 0.
fn put_block_at(
    alloc: Global,
    text: &mut String,
    catalogue: &Catalogue,
    lanes: &[Lane],
    bars: &[Bar],
    moments: &[Moment],
    number: usize,
) -> Result<(), AllocError>
    requires { number ≤ length moments.now / 60 }
    ensures { OnOk result (string_bytes text.new ≡ string_bytes text.old
        ++ block_text catalogue.now lanes.now bars.now (chunk number moments.now)) }
{
    let block = chunk(moments, number);
    put_block(alloc, text, catalogue, lanes, bars, block)
}

// Puts all blocks.
fn put_blocks(
    alloc: Global,
    text: &mut String,
    catalogue: &Catalogue,
    lanes: &[Lane],
    bars: &[Bar],
    moments: &[Moment],
) -> Result<(), AllocError>
    ensures { OnOk result (string_bytes text.new ≡ string_bytes text.old
        ++ blocks_text catalogue.now lanes.now bars.now moments.now (suc (length moments.now / 60))) }
{
    let count = moments.len() / COLUMNS + 1;
    for number in 0..count {
        put_block_at(alloc, text, catalogue, lanes, bars, moments, number)?;
    }
    Ok(())
}

// Puts what the letters stand for.
fn put_key(text: &mut String) -> Result<(), AllocError>
    ensures { OnOk result (string_bytes text.new ≡ string_bytes text.old ++ key) }
{
    text.push_str("[ begins a body, = is in it, ] ends it; w waits; d is delayed; x is refused\n")
}

// Puts these bars in the blocks of entries, under what the letters stand for, in these lanes.
fn put_letters_in(
    alloc: Global,
    text: &mut String,
    catalogue: &Catalogue,
    lanes: &[Lane],
    bars: &[Bar],
    moments: &[Moment],
) -> Result<(), AllocError>
    ensures { OnOk result (string_bytes text.new ≡ string_bytes text.old ++ letters_in catalogue.now lanes.now bars.now moments.now) }
{
    put_key(text)?;
    put_blocks(alloc, text, catalogue, lanes, bars, moments)
}

// Puts these bars in their lanes.
fn put_letters_with(
    alloc: Global,
    text: &mut String,
    catalogue: &Catalogue,
    moments: &[Moment],
    bars: &[Bar],
) -> Result<(), AllocError>
    ensures { OnOk result (string_bytes text.new ≡ string_bytes text.old ++ letters_with catalogue.now moments.now bars.now) }
{
    let lanes = lanes(alloc, catalogue, bars)?;
    put_letters_in(alloc, text, catalogue, lanes.as_slice(), bars, moments)
}

// Puts those of these bars that have a part in the entries.
fn put_letters(
    alloc: Global,
    text: &mut String,
    catalogue: &Catalogue,
    moments: &[Moment],
    bars: &[Bar],
) -> Result<(), AllocError>
    ensures { OnOk result (string_bytes text.new ≡ string_bytes text.old ++ letters_of catalogue.now moments.now bars.now) }
{
    let shown = within(alloc, moments, bars)?;
    put_letters_with(alloc, text, catalogue, moments, shown.as_slice())
}

/// A timeline as rows of letters: what the letters stand for, and blocks of at most 60 entries. A block has a row for each lane that has a
/// bar there, and a row a letter for each entry. Err where memory was refused.
pub fn letters(
    alloc: Global,
    frame: &Frame,
    catalogue: &Catalogue,
    moments: &[Moment],
    bars: &[Bar],
) -> Result<String, AllocError>
    ensures { IfOk result (λ text. string_bytes text ≡ letters_text frame.now catalogue.now moments.now bars.now) }
{
    let mut text = String::new(alloc);
    let shown = in_frame(alloc, frame, moments)?;
    put_letters(alloc, &mut text, catalogue, shown.as_slice(), bars)?;
    Ok(text)
}
