//! Words and flags that are given wrongly.

use std::fmt;

/// What may be given wrongly.
#[derive(Clone, Copy, Drop)]
pub enum Given {
    /// Since when entries are asked for.
    Since,
    /// The number of an entry.
    Entry,
    /// The first entry of a timeline.
    First,
    /// The last entry of a timeline.
    Last,
}

impl Given {
    // How help shows it.
    fn shown(self) -> &'static str {
        match self {
            Given::Since => "--since <WHEN>",
            Given::Entry => "<N>",
            Given::First => "--from <N>",
            Given::Last => "--to <N>",
        }
    }

    // What it takes.
    fn takes(self) -> &'static str {
        match self {
            Given::Since => "entry:N, tick:N or a time as 2026-11-30T14:20:00Z",
            Given::Entry | Given::First | Given::Last => "the number of an entry",
        }
    }
}

/// What is wrong with a word or a flag. Shown as a sentence for whoever gave it.
#[derive(Clone, Copy, Drop)]
pub enum Misuse<'a> {
    /// It is this word, which stands for nothing there.
    Word(Given, &'a str),
    /// `--torn` stands without `--journal`.
    TornAlone,
    /// `--since` stands with an instant, and without `--times`.
    InstantAlone,
    /// `--text` stands beside `--svg`.
    TwoForms,
}

impl fmt::Display for Misuse<'_> {
    fn fmt<W: fmt::Write>(&self, f: &mut fmt::Formatter<W>) -> fmt::Result {
        match self {
            Misuse::Word(given, word) => write!(
                f,
                "invalid value '{word}' for '{}': {}",
                given.shown(),
                given.takes()
            ),
            Misuse::TornAlone => write!(f, "'--torn' needs '--journal <FILE>'"),
            Misuse::InstantAlone => write!(f, "'--since' with a time needs '--times <FILE>'"),
            Misuse::TwoForms => write!(f, "the argument '--text' cannot be used with '--svg'"),
        }
    }
}
