//! What a command line asks: the types.

use crate::misuse::Misuse;
use clap::Error;

/// Since when entries are asked for.
#[derive(Clone, Copy, Debug, Drop, PartialEq, Eq)]
pub enum From {
    /// All of them.
    Start,
    /// From the entry of this number on.
    Entry(u64),
    /// From this tick on.
    Tick(u64),
    /// From the first entry on that wasn't written before this instant, in nanoseconds since 1970.
    Instant(i128),
}

/// What is asked of a journal.
#[derive(Clone, Copy, Drop)]
pub enum Question {
    /// Which entries were refused.
    Refusals,
    /// Who waited, and for how long.
    Waits,
    /// Who may call what; with another list, where the two differ.
    Access,
    /// Who may call an operation, an object or a unit.
    Who,
    /// What stands behind an entry.
    State,
    /// Why an entry was answered as it was.
    Explain,
    /// How often each line of the lists decided.
    Hits,
    /// What another list would have decided otherwise.
    WhatIf,
    /// Who held, waited and was refused when.
    Timeline,
    /// Each entry, with what follows from those before it, as JSON.
    Export,
}

/// What the words of a command line ask.
#[derive(Clone, Copy, Drop)]
pub struct Inquiry<'a> {
    /// What is asked.
    pub question: Question,
    /// The name of the file that holds the journal, where one is given.
    pub journal: Option<&'a str>,
    /// The name of the file that says by when the entries were written, where one is given.
    pub times: Option<&'a str>,
    /// Whether a last line without its line feed was cut off.
    pub takes_torn: bool,
    /// Since when entries are asked for.
    pub since: From,
    /// Whose entries are asked for, where that is given.
    pub by: Option<&'a str>,
    /// Of what entries are asked for, where that is given.
    pub of: Option<&'a str>,
    /// The number of the entry that is asked about: always given with `state` and `explain`, and with no other.
    pub entry: Option<u64>,
    /// The name of the file that holds another list: always given with `whatif`; with `access` where the difference is asked for.
    pub list: Option<&'a str>,
    /// The number of the first entry that a timeline shows, where that is given.
    pub first: Option<u64>,
    /// The number of the last entry that a timeline shows, where that is given.
    pub last: Option<u64>,
    /// Whether a timeline is an SVG picture, in place of text.
    pub is_svg: bool,
    /// Whether the rows of `access` and `who` are JSON, in place of text.
    pub is_json: bool,
}

/// Why the words of a command line ask nothing.
#[derive(Drop)]
pub enum Unasked<'a> {
    /// They are no command line, or ask for help, which this prints.
    Usage(Error),
    /// There is no subcommand of this name.
    Unknown,
    /// A word or a flag is given wrongly: the first of `--torn`, `--since`, N, `--from`, `--to` and `--text`.
    Misused(Misuse<'a>),
    /// Memory was refused.
    NoMemory,
}
