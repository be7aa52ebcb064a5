//! How often something was counted, by words.

ghost use Rattle.std.specs.Prelude.{◌≡◌, ℕ, List, OnOk, string_bytes};
ghost use Rattle.rv_tallied.specs.Tallies.{added, counted, kept_for, more, never, one_more, once_more};

use std::alloc::{AllocError, Global};
use std::collections::HashMap;

/// How often something was counted, and how often something was granted with it.
#[derive(Clone, Copy, Drop)]
pub struct Tally {
    /// How often it was counted.
    pub times: u64,
    /// How often something was granted with it.
    pub granted: u64,
}

/// How often something was counted, by words.
pub struct Tallies {
    items: HashMap<String, Tally>,
}

impl Drop for Tallies {
    // A function of its own: a derived one is written out wherever one is let go, and proved there.
    fn drop(self) {
        let Tallies { items: _ } = self;
    }
}

/// One more, as far as a number goes.
pub fn one_more(number: u64) -> u64
    ensures { result ≡ one_more number }
{
    number.saturating_add(1)
}

// Once more, and granted or not.
fn once_more(tally: Tally, grants: bool) -> Tally
    ensures { result ≡ once_more grants tally }
{
    let granted = if grants {
        one_more(tally.granted)
    } else {
        tally.granted
    };
    Tally {
        times: one_more(tally.times),
        granted,
    }
}

// So often more, and granted each time or never.
fn more(tally: Tally, times: u64, grants: bool) -> Tally
    ensures { result ≡ more times grants tally }
{
    let granted = if grants {
        tally.granted.saturating_add(times)
    } else {
        tally.granted
    };
    Tally {
        times: tally.times.saturating_add(times),
        granted,
    }
}

impl Tallies {
    /// Nothing was counted yet.
    pub fn new(alloc: Global) -> Tallies
        ensures { (words : List ℕ) → kept_for result words ≡ never }
    {
        Tallies {
            items: HashMap::new(alloc),
        }
    }

    /// How often words were counted.
    pub fn of(&self, words: &str) -> Tally
        ensures { result ≡ kept_for self.now words.now }
    {
        match self.items.get(words) {
            Some(tally) => *tally,
            None => Tally {
                times: 0,
                granted: 0,
            },
        }
    }

    /// Words are counted once more, and something was granted with them or not. Err where memory was refused.
    pub fn count(&mut self, words: String, grants: bool) -> Result<(), AllocError>
        ensures { OnOk result ((other : List ℕ) → kept_for self.new other
            ≡ counted (string_bytes words) grants other (kept_for self.old other)) }
    {
        let tally = once_more(self.of(words.as_str()), grants);
        self.items.insert(words, tally)?;
        Ok(())
    }

    /// Words are counted so often more, and something was granted with them each time or never. Err where memory was refused.
    pub fn add(&mut self, words: String, times: u64, grants: bool) -> Result<(), AllocError>
        ensures { OnOk result ((other : List ℕ) → kept_for self.new other
            ≡ added (string_bytes words) times grants other (kept_for self.old other)) }
    {
        let tally = more(self.of(words.as_str()), times, grants);
        self.items.insert(words, tally)?;
        Ok(())
    }
}
