//! What is asked of an attended run.

/// How the commands of a console come.
#[derive(Clone, Copy, Debug, PartialEq, Eq, Drop)]
pub enum Typing {
    /// Somebody types them at a terminal, which shows them.
    Shown,
    /// They come from elsewhere, and are echoed.
    Echoed,
}

/// What is asked of an attended run.
#[derive(Clone, Copy, Drop)]
pub struct Attention {
    /// The milliseconds between two ticks, where a real clock is followed.
    pub period: Option<u64>,
    /// How many entries each unit may spend, where that is bounded.
    pub quota: Option<u32>,
    /// How many entries are kept for the operator's list changes, where units have a quota.
    pub operator_room: Option<u32>,
    /// The room of the journal below which the run ends.
    pub halt_below: Option<u32>,
    /// Whether the run lasts: entries are given up once the file has them, and at Full a port asks again.
    pub lasting: bool,
    /// How many milliseconds the end of the run waits for threads, where that is bounded.
    pub grace: Option<u32>,
    /// Whether notes are told.
    pub tells: bool,
    /// Whether it is explained why a command, or a unit text behind `load`, is refused.
    pub explains: bool,
    /// How commands come, where there is a console.
    pub console: Option<Typing>,
    /// How wide the tables of the console are, in characters, where they are cut.
    pub columns: Option<usize>,
}
