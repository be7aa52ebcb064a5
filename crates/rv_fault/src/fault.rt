//! What can be wrong with a script.

ghost use Rattle.std.specs.Prelude.{◌≡◌};
ghost use Rattle.rv_fault.specs.Faults.{of_bytes};

use rv_access::ListFault;
use rv_script::TextError;
use rv_settings::SettingsFault;
use rv_shape::fault::ShapeFault;
use rv_unit::UnitFault;
use thiserror::Error;

/// What is wrong with a script.
#[derive(Clone, Copy, Debug, Drop, PartialEq, Eq, Error)]
pub enum What {
    /// The script is longer than 16,777,216 bytes, or a unit text longer than 262,144.
    #[error("TooLong")]
    TooLong,
    /// The script isn't UTF-8.
    #[error("NotText")]
    NotText,
    /// A line that opens no section known here, or text before the first section.
    #[error("BadSection")]
    BadSection,
    /// A line that is no step, or of a script for `run` no command, or a `load` without `@end`.
    #[error("BadStep")]
    BadStep,
    /// A step, or a device of the settings, that names what isn't loaded.
    #[error("UnknownName")]
    UnknownName,
    /// A first section whose text is no settings.
    #[error("settings {0}")]
    Settings(SettingsFault),
    /// A section whose text is no shape, or one that doesn't fit, or a device's unit that doesn't.
    #[error("shape {0}")]
    Shape(ShapeFault),
    /// A section whose text is no list.
    #[error("list {0}")]
    List(ListFault),
    /// A unit text that is no unit, or one that doesn't fit.
    #[error("{0}")]
    Unit(UnitFault),
}

impl What {
    /// What is told of bytes that are no script.
    pub fn of_bytes(error: TextError) -> What
        ensures { result ≡ of_bytes error }
    {
        match error {
            TextError::TooLong => What::TooLong,
            TextError::NotText => What::NotText,
        }
    }
}

/// What is wrong with a script, and at which of its lines: that of the step, or the opening of the
/// section.
#[derive(Clone, Copy, Debug, Drop, PartialEq, Eq, Error)]
#[error("script line {line}: {what}")]
pub struct ScriptFault {
    pub line: usize,
    pub what: What,
}
