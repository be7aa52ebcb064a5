//! What is due, as a journal fills.

ghost use Rattle.std.specs.Prelude.{◌≡◌};
ghost use Rattle.rv_tally.specs.Guarding.{due, due_at, is_below, is_to_tell, level_at, noted, rank, watch_of};

use rv_shape::catalogue::Catalogue;
use std::marker::Model;

/// How much room a journal has left.
#[derive(Clone, Copy, Drop)]
pub enum Level {
    /// More than a half.
    Ample,
    /// At most a half.
    Half,
    /// At most a quarter.
    Quarter,
    /// At most a tenth.
    Tenth,
    /// None but for the ends of the tasks and the halt.
    Spent,
}

/// What is due.
#[derive(Clone, Copy, Drop)]
pub enum Due {
    /// Nothing.
    Nothing,
    /// The room left is to be told, at this level.
    Tell(Level),
    /// The run is to end.
    Halt,
}

/// What was set for a run, and what of it was done.
#[derive(Drop)]
pub struct Guard {
    // The room below which the run ends.
    halt_below: Option<u32>,
    // Whether the room left is told.
    tells: bool,
    // At which level it was told last.
    told: Level,
}

impl Model for Guard {
    ghost use Rattle.rv_tally.specs.Watching.{Watch};

    ghost Value = { Watch };

    ghost view = { λ g. record { halt_below = g.halt_below; tells = g.tells; told = g.told } };
}

// How late a level comes.
fn rank(level: Level) -> u8
    ensures { result ≡ rank level }
{
    match level {
        Level::Ample => 0,
        Level::Half => 1,
        Level::Quarter => 2,
        Level::Tenth => 3,
        Level::Spent => 4,
    }
}

// The level of so much room of a capacity, of which some is kept for the ends.
fn level_at(capacity: usize, left: usize, kept: usize) -> Level
    ensures { result ≡ level_at capacity left kept }
{
    if left <= kept {
        Level::Spent
    } else if left <= capacity / 10 {
        Level::Tenth
    } else if left <= capacity / 4 {
        Level::Quarter
    } else if left <= capacity / 2 {
        Level::Half
    } else {
        Level::Ample
    }
}

// Whether the room is below the one at which the run ends.
fn is_below(halt_below: Option<u32>, left: usize) -> bool
    ensures { result ≡ is_below halt_below left }
{
    match halt_below {
        Some(least) => left < least as usize,
        None => false,
    }
}

impl Guard {
    /// A guard of a run: the room below which the run ends, and whether the room left is told.
    pub fn new(halt_below: Option<u32>, tells: bool) -> Guard
        ensures { result ≡ watch_of halt_below tells }
    {
        Guard {
            halt_below,
            tells,
            told: Level::Ample,
        }
    }

    // Whether a level is to be told.
    fn is_to_tell(&self, now: Level) -> bool
        ensures { result ≡ is_to_tell self.now now }
    {
        self.tells && rank(self.told) < rank(now)
    }

    // What is due with so much room left.
    fn due_at(&self, now: Level, left: usize) -> Due
        ensures { result ≡ due_at self.now now left }
    {
        if self.is_to_tell(now) {
            return Due::Tell(now);
        }
        if is_below(self.halt_below, left) {
            return Due::Halt;
        }
        Due::Nothing
    }

    /// What is due behind so many of a capacity's entries: a level of room is told before the end of the run, once and no
    /// more than once.
    pub fn next(&self, catalogue: &Catalogue, capacity: usize, used: usize) -> Due
        ensures { result ≡ due self.now catalogue.now capacity used }
    {
        let left = capacity.saturating_sub(used);
        let kept = catalogue.tasks() + 1;
        self.due_at(level_at(capacity, left, kept), left)
    }

    /// What is due was done, and isn't due again.
    pub fn note(&mut self, due: Due)
        ensures { self.new ≡ noted self.old due }
    {
        if let Due::Tell(now) = due {
            self.told = now;
        }
    }
}
