//! Flags that are given wrongly.

ghost use Rattle.std.specs.Prelude.{◌≡◌, IfOk, option_map};
ghost use Rattle.rv_choice.specs.Choices.{wrong_as, wrong_in};

use std::fmt;

/// A flag that may be given wrongly.
#[derive(Clone, Copy, Drop)]
pub enum Flag {
    /// When a file is synced.
    Sync,
    /// How long a tick is.
    Tick,
    /// The room below which a run ends.
    HaltBelow,
    /// How many entries each unit may spend.
    Quota,
    /// How many entries are kept for the operator's list changes.
    OperatorRoom,
    /// How long the end of a run waits.
    Grace,
    /// When notes are told.
    Notes,
    /// When there are colours.
    Color,
    /// Whether a last line was cut off.
    Torn,
    /// Which task belongs to another process.
    Actor,
    /// How many MiB a file of a journal has.
    Rotate,
    /// The file of the units.
    KeepUnits,
    /// The file of the times.
    Times,
}

impl Flag {
    // How help shows it.
    fn shown(self) -> &'static str {
        match self {
            Flag::Sync => "--sync <HOW>",
            Flag::Tick => "--tick <MS>",
            Flag::HaltBelow => "--halt-below <N>",
            Flag::Quota => "--quota <N>",
            Flag::OperatorRoom => "--operator-room <K>",
            Flag::Grace => "--grace <MS>",
            Flag::Notes => "--notes <WHEN>",
            Flag::Color => "--color <WHEN>",
            Flag::Torn => "--torn",
            Flag::Actor => "--actor <TASK=IN,OUT>",
            Flag::Rotate => "--rotate <MIB>",
            Flag::KeepUnits => "--keep-units <FILE>",
            Flag::Times => "--times <FILE>",
        }
    }

    // What it takes.
    fn takes(self) -> &'static str {
        match self {
            Flag::Sync => "each, second or never",
            Flag::Tick | Flag::Grace => "1 to 3600000",
            Flag::HaltBelow | Flag::Quota | Flag::OperatorRoom | Flag::Rotate => "1 to 1048576",
            Flag::KeepUnits | Flag::Times => "the name of a file",
            Flag::Notes | Flag::Color => "auto, always or never",
            Flag::Torn => "no word",
            Flag::Actor => "the name of a task, as Plant.Sensor, and of two pipes",
        }
    }
}

/// What is wrong with a flag. Shown as a sentence for whoever gave it.
#[derive(Clone, Copy, Drop)]
pub enum Misuse<'a> {
    /// It has this word, which it doesn't take.
    Word(Flag, &'a str),
    /// It stands without `--journal`.
    Alone(Flag),
    /// It is given twice of what this word names first.
    Twice(Flag, &'a str),
}

impl fmt::Display for Misuse<'_> {
    fn fmt<W: fmt::Write>(&self, f: &mut fmt::Formatter<W>) -> fmt::Result {
        match self {
            Misuse::Word(flag, word) => write!(
                f,
                "invalid value '{word}' for '{}': {}",
                flag.shown(),
                flag.takes()
            ),
            Misuse::Alone(flag) => write!(f, "'{}' needs '--journal <FILE>'", flag.shown()),
            Misuse::Twice(flag, word) => write!(
                f,
                "'{word}' for '{}' is of a task that is given twice",
                flag.shown()
            ),
        }
    }
}

/// What the word of a flag says, where it says something; else what is wrong with it.
pub(crate) fn said_by<'a, T: Drop>(
    flag: Flag,
    word: Option<&'a str>,
    said: Option<T>,
) -> Result<T, Misuse<'a>>
    ensures ok { IfOk result (λ it. said ≡ Some it) }
    ensures wrong { wrong_in result ≡ wrong_as flag (option_map (λ w. w.now) word.entry) said }
{
    match (said, word) {
        (Some(it), _) => Ok(it),
        (None, Some(word)) => Err(Misuse::Word(flag, word)),
        (None, None) => Err(Misuse::Alone(flag)),
    }
}
