//! How often each line of the list in force decided, by its place in the list.

ghost use Rattle.std.specs.Prelude.{◌≡◌, ◌<◌, ℕ, List, [], IfOk, OnOk, length, slice_get, Some};
ghost use Rattle.rv_access.specs.Words.{Words};
ghost use Rattle.rv_tallied.specs.Tallies.{kept_for};
ghost use Rattle.rv_hits.specs.Counts.{AreOf, CountsAt, IsFresh, IsFreshOf, joined, with_count};

use rv_access::Line;
use rv_tallied::tallies::{Tallies, one_more};
use std::alloc::{AllocError, Global};

/// A line of the list in force: its words, whether it allows, and how often it decided.
pub struct Counted {
    words: String,
    allows: bool,
    times: u64,
}

impl Drop for Counted {
    // A function of its own: a derived one is written out wherever one is let go, and proved there.
    fn drop(self) {
        let Counted {
            words: _,
            allows: _,
            times: _,
        } = self;
    }
}

/// A line that hasn't decided yet. Err where memory was refused.
fn fresh(alloc: Global, line: &Line) -> Result<Counted, AllocError>
    ensures { IfOk result (λ it. IsFreshOf it line.now) }
{
    Ok(Counted {
        words: line.text(alloc)?,
        allows: line.allows(),
        times: 0,
    })
}

/// The lines of a list that comes in force: none has decided yet. Err where memory was refused.
pub fn counts_of(alloc: Global, lines: &[Line]) -> Result<Vec<Counted>, AllocError>
    ensures { IfOk result (λ counts. IsFresh counts.items lines.now) }
{
    let mut counts = Vec::new(alloc);
    for line in lines {
        counts.push(fresh(alloc, line)?)?;
    }
    Ok(counts)
}

/// The line at a place decides once more.
pub fn count_at(counts: &mut [Counted], place: usize)
    requires { place < length counts.old }
    ensures { (list : List Words) (line : Words) → AreOf counts.old list → slice_get list place ≡ Some line → CountsAt counts.old counts.new list line }
{
    let times = one_more(counts[place].times);
    counts[place].times = times;
}

// Adds how often a line decided to what is kept for its words, if it did.
fn join_one(alloc: Global, tallies: &mut Tallies, counted: &Counted) -> Result<(), AllocError>
    ensures { OnOk result ((words : List ℕ) → kept_for tallies.new words ≡ with_count counted.now words (kept_for tallies.old words)) }
{
    if counted.times == 0 {
        return Ok(());
    }
    let words = String::from_str(alloc, counted.words.as_str())?;
    tallies.add(words, counted.times, counted.allows)
}

/// Adds how often each line decided to what is kept for its words. Err where memory was refused.
pub fn join(alloc: Global, tallies: &mut Tallies, counts: &[Counted]) -> Result<(), AllocError>
    ensures { OnOk result ((words : List ℕ) → kept_for tallies.new words ≡ joined counts.now words (kept_for tallies.old words)) }
{
    let [counted, counts @ ..] = counts else {
        return Ok(());
    };
    join_one(alloc, tallies, counted)?;
    join(alloc, tallies, counts)
}
