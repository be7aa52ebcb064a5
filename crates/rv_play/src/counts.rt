//! How many answers were given, and how many of them no entry has.

ghost use Rattle.std.specs.Prelude.{◌≡◌};
ghost use Rattle.rv_play.specs.Counts.{counted, no_answers, one_more, unrecorded};

use rv_event::entry::Answer;
use std::fmt;

/// How many answers were given, and of those that the journal doesn't have how many of each kind.
#[derive(Clone, Copy, Drop)]
pub struct Counts {
    /// All answers, recorded or not.
    pub answers: usize,
    pub misuse: usize,
    pub busy: usize,
    pub waiting: usize,
    pub full: usize,
    pub halted: usize,
    pub unattached: usize,
    pub badline: usize,
}

// One more.
fn one_more(count: usize) -> usize
    ensures { result ≡ one_more count }
{
    count.saturating_add(1)
}

impl Counts {
    /// Before the first answer.
    pub fn new() -> Counts
        ensures { result ≡ no_answers }
    {
        Counts {
            answers: 0,
            misuse: 0,
            busy: 0,
            waiting: 0,
            full: 0,
            halted: 0,
            unattached: 0,
            badline: 0,
        }
    }

    /// Counts an answer.
    pub fn count(&mut self, answer: &Answer)
        ensures { self.new ≡ counted self.old answer.now }
    {
        self.answers = one_more(self.answers);
        match answer {
            Answer::Misuse => self.misuse = one_more(self.misuse),
            Answer::Busy => self.busy = one_more(self.busy),
            Answer::Waiting => self.waiting = one_more(self.waiting),
            Answer::Full => self.full = one_more(self.full),
            Answer::Halted => self.halted = one_more(self.halted),
            Answer::Unattached => self.unattached = one_more(self.unattached),
            Answer::BadLine => self.badline = one_more(self.badline),
            _ => {}
        }
    }

    // Those that the journal doesn't have, by the words that they are told by.
    fn kinds(&self) -> [(&'static str, usize); 7] {
        [
            ("misuse", self.misuse),
            ("busy", self.busy),
            ("waiting", self.waiting),
            ("full", self.full),
            ("halted", self.halted),
            ("unattached", self.unattached),
            ("badline", self.badline),
        ]
    }

    /// How many answers the journal doesn't have.
    pub fn unrecorded(&self) -> usize
        ensures { result ≡ unrecorded self.now }
    {
        self.misuse
            .saturating_add(self.busy)
            .saturating_add(self.waiting)
            .saturating_add(self.full)
            .saturating_add(self.halted)
            .saturating_add(self.unattached)
            .saturating_add(self.badline)
    }
}

/// Which answers the journal doesn't have: `3 of 40 answers aren't in the journal (2 misuse, 1 busy)`.
impl fmt::Display for Counts {
    fn fmt<W: fmt::Write>(&self, f: &mut fmt::Formatter<W>) -> fmt::Result {
        let unrecorded = self.unrecorded();
        let all = self.answers;
        let verb = if unrecorded == 1 { "isn't" } else { "aren't" };
        write!(f, "{unrecorded} of {all} answers {verb} in the journal (")?;
        let mut between = "";
        for (word, count) in self.kinds() {
            if count > 0 {
                write!(f, "{between}{count} {word}")?;
                between = ", ";
            }
        }
        f.write_str(")")
    }
}
