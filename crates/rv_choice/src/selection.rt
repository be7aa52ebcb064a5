//! What a command line chooses: the types.

ghost use Rattle.std.specs.Prelude.{◌≡◌, ◌||◌, is_some};

/// What the program is to do.
#[derive(Clone, Copy, Debug, Drop, PartialEq, Eq)]
pub enum Choice {
    /// Carry out a script; where the flag is set, unrecorded answers are printed too.
    Play(bool),
    /// Look at the sections of a script. Where the flag is set, a whole script is looked at, its steps, commands or journal
    /// too.
    Check(bool),
    /// Run a host, with a thread for each actor, and serve the operator's commands.
    Run,
    /// Judge the journal of a script.
    Audit,
    /// Judge a journal in a file of its own; where the flag is set, a last line without its line feed was cut off.
    AuditFile(bool),
    /// Print the help of the program, or of a subcommand, on standard output.
    Manual,
}

/// When notes are told, faults explained, or colours shown, on standard error.
#[derive(Clone, Copy, Debug, Drop, PartialEq, Eq)]
pub enum When {
    /// Where standard error is a terminal.
    Auto,
    Always,
    Never,
}

/// When the file of a journal is synced with its disk.
#[derive(Clone, Copy, Debug, Drop, PartialEq, Eq)]
pub enum Sync {
    /// Behind each page that is written.
    Each,
    /// Where a second went by since the last time.
    Second,
    /// Not at all.
    Never,
}

/// The file that a run's journal is kept in.
#[derive(Clone, Copy, Drop)]
pub struct KeptFile<'a> {
    /// Its name.
    pub name: &'a str,
    /// When it is synced.
    pub sync: Sync,
}

/// What a run does beside its commands.
#[derive(Clone, Copy, Drop)]
pub struct RunWords<'a> {
    /// The file that its journal is kept in, where one is given.
    pub kept: Option<KeptFile<'a>>,
    /// The milliseconds between two ticks of the clock, where it follows a real one.
    pub tick: Option<u32>,
    /// The room of the journal below which it ends.
    pub halt_below: Option<u32>,
    /// How many entries each unit may spend, also of the run whose journal is judged.
    pub quota: Option<u32>,
    /// How many entries are kept for the operator's list changes, where that is said.
    pub operator_room: Option<u32>,
    /// The name of the pipe whose end ends it, where one is given.
    pub stop_by: Option<&'a str>,
    /// Whether a person is served by a console.
    pub console: bool,
    /// Whether the status says that the run ended by itself.
    pub tells_end: bool,
    /// Whether nothing starts where the input ends before its line `@run`.
    pub wants_run: bool,
    /// The milliseconds that its end waits for threads, where that is bounded.
    pub grace: Option<u32>,
    /// Whether its journal goes on without end.
    pub lasting: bool,
}

impl RunWords<'_> {
    /// Whether there is anything beside its commands.
    pub fn is_attended(&self) -> bool
        ensures { result ≡ (is_some self.now.kept || is_some self.now.tick || is_some self.now.halt_below || is_some self.now.quota
            || is_some self.now.operator_room || is_some self.now.stop_by || self.now.console || self.now.tells_end || self.now.wants_run || is_some self.now.grace || self.now.lasting) }
    {
        self.kept.is_some()
            || self.tick.is_some()
            || self.halt_below.is_some()
            || self.quota.is_some()
            || self.operator_room.is_some()
            || self.stop_by.is_some()
            || self.console
            || self.tells_end
            || self.wants_run
            || self.grace.is_some()
            || self.lasting
    }
}

/// What the words of a command line choose.
#[derive(Clone, Copy, Drop)]
pub struct Selection<'a> {
    /// What the program is to do.
    pub choice: Choice,
    /// When notes on the lists of a script are told.
    pub notes: When,
    /// When standard error has colours.
    pub color: When,
    /// Whether such a note ends the program before the first step.
    pub are_errors: bool,
    /// The name of the file that holds a journal, where one is given.
    pub journal: Option<&'a str>,
    /// When a script's fault is explained, and in a run a command that is refused.
    pub faults: When,
    /// Whether the ends of bodies in a journal are explained.
    pub ends: bool,
    /// What a run does beside its commands.
    pub run: RunWords<'a>,
    /// The name of the file that the script is read from, in place of standard input, where one is given.
    pub file: Option<&'a str>,
    /// The name of the subcommand whose help is printed, where one is given.
    pub subject: Option<&'a str>,
}

/// Nothing beside the commands.
pub const NO_RUN: RunWords<'static> = RunWords {
    kept: None,
    tick: None,
    halt_below: None,
    quota: None,
    operator_room: None,
    stop_by: None,
    console: false,
    tells_end: false,
    wants_run: false,
    grace: None,
    lasting: false,
};
