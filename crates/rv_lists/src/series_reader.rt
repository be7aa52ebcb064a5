//! Reads lists one behind another.

ghost use Rattle.std.specs.Prelude.{◌≡◌, ◌≤◌, ◌-◌, ℕ, List, [], length, map, take, slice_get, option_map, string_bytes, IfOk, OnOk};
ghost use Rattle.rv_access.specs.Text.{list_text};
ghost use Rattle.rv_lists.specs.Kept.{after, next};

use crate::kept::Kept;
use crate::series::Series;
use rv_access::Line;
use std::alloc::{AllocError, Global};
use std::marker::Model;

/// Reads lists. The list that was read last stays put together, so that one that stands shortly behind it costs little.
#[derive(Drop)]
pub struct SeriesReader<'a> {
    kept: &'a [Kept],
    // How many of them are put together.
    at: usize,
    // The lines of the last of these.
    lines: Vec<&'a Line>,
}

impl<'a> Model for SeriesReader<'a> {
    ghost use Rattle.std.specs.Prelude.{◌≡◌, ◌≤◌, List, [], length, map, take};
    ghost use Rattle.rv_access.specs.Words.{Words};
    ghost use Rattle.rv_lists.specs.Kept.{after, lists_of};

    ghost Value = { List (List Words) };

    ghost view = { λ r. lists_of r.kept.now };

    ghost invariant = { λ r. (r.at ≤ length r.kept.now) × (map (λ l. l.now) r.lines.items ≡ after [] (take r.at r.kept.now)) };
}

// The lines of the list behind one of these lines. Err where memory was refused.
#[tactic(auto, using(crate::proofs::Reading::behind))]
fn lines_after<'a>(
    alloc: Global,
    before: &[&'a Line],
    kept: &'a Kept,
) -> Result<Vec<&'a Line>, AllocError>
    ensures { IfOk result (λ lines. map (λ l. l.now) lines.items ≡ next (map (λ l. l.now) before.now) kept.now) }
{
    let room = before.len().saturating_add(kept.lines.len());
    let mut lines = Vec::with_capacity(alloc, room)?;
    let front = kept.front.min(before.len());
    let (start, _) = before.split_at(front);
    lines.extend_from_slice(start)?;
    for line in &kept.lines {
        lines.push(line)?;
    }
    let back = before.len().saturating_sub(kept.back);
    let (_, end) = before.split_at(back);
    lines.extend_from_slice(end)?;
    Ok(lines)
}

// The text of these lines. Err where memory was refused.
fn text_of(alloc: Global, lines: &[&Line]) -> Result<String, AllocError>
    ensures { IfOk result (λ text. string_bytes text ≡ list_text (map (λ l. l.now) lines.now)) }
{
    let mut text = String::new(alloc);
    for (i, line) in lines.iter().enumerate() {
        line.put(alloc, &mut text, i)?;
    }
    Ok(text)
}

// Puts the list of a number together, which counts from 1; of 0 the empty one. Those before it back to one that is kept
// whole, or to the one that is put together, are put together first. Err where memory was refused.
fn put_together<'a>(
    alloc: Global,
    kept: &'a [Kept],
    at: &mut usize,
    lines: &mut Vec<&'a Line>,
    number: usize,
) -> Result<(), AllocError>
    requires there { number ≤ length kept.now }
    requires within { at.old ≤ length kept.now }
    requires lines { map (λ l. l.now) lines.old.items ≡ after [] (take at.old kept.now) }
    ensures within { at.new ≤ length kept.now }
    ensures lines { map (λ l. l.now) lines.new.items ≡ after [] (take at.new kept.now) }
    ensures at { OnOk result (at.new ≡ number) }
{
    if *at == number {
        return Ok(());
    }
    if number == 0 {
        lines.clear();
        *at = 0;
        return Ok(());
    }
    let last = &kept[number - 1];
    if !last.is_whole() {
        put_together(alloc, kept, at, lines, number - 1)?;
    }
    *lines = lines_after(alloc, lines.as_slice(), last)?;
    *at = number;
    Ok(())
}

impl<'a> SeriesReader<'a> {
    /// Reads these lists.
    pub fn new(alloc: Global, lists: &'a Series) -> SeriesReader<'a>
        ensures { result ≡ lists.now }
    {
        SeriesReader {
            kept: lists.kept(),
            at: 0,
            lines: Vec::new(alloc),
        }
    }

    /// The text of the list of a number, which counts from 0, or `None` where there is none. Err where memory was refused.
    #[tactic(auto, using(crate::proofs::Following::list_there, crate::proofs::Following::none_there))]
    pub fn text(&mut self, alloc: Global, index: usize) -> Result<Option<String>, AllocError>
        ensures text { IfOk result (λ text. option_map string_bytes text ≡ option_map list_text (slice_get self.old index)) }
        ensures lists { self.new ≡ self.old }
    {
        if self.kept.len() <= index {
            return Ok(None);
        }
        put_together(alloc, self.kept, &mut self.at, &mut self.lines, index + 1)?;
        Ok(Some(text_of(alloc, self.lines.as_slice())?))
    }
}
