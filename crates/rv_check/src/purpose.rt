//! Which command a script is for, and what that command makes of its parts.

ghost use Rattle.std.specs.Prelude.{◌≡◌, ◌<◌, ◌^◌, length, Ok};
ghost use Rattle.rv_script.specs.Openings.{OpenedText, opened};
ghost use Rattle.rv_check.specs.Purposes.{is_last, purpose_of, role_of, taken_by};

use rv_fault::Parts;
use rv_script::{Opening, open};

/// Which command a script is for.
#[derive(Clone, Copy, Drop)]
pub enum Purpose {
    /// It has steps, or nothing that one command alone takes.
    Play,
    /// It has a line `@run`.
    Run,
    /// It has a journal.
    Audit,
}

// The command that alone takes a part of an opening.
fn taken_by(opening: Option<Opening>) -> Option<Purpose>
    ensures { result ≡ taken_by opening }
{
    match opening {
        Some(Opening::Steps) => Some(Purpose::Play),
        Some(Opening::Journal) => Some(Purpose::Audit),
        Some(Opening::Run) => Some(Purpose::Run),
        _ => None,
    }
}

// Which command parts are for.
fn purpose_of(mut parts: Parts<'_>) -> Purpose
    ensures { result ≡ purpose_of parts.entry }
{
    'each: while let Some(part) = parts.next_part() {
        if let Some(purpose) = taken_by(part.opening) {
            return purpose;
        }
    }
    Purpose::Play
}

/// What a part is to the command that its script is for.
#[derive(Clone, Copy, Drop)]
pub enum Role {
    /// It is looked at as `check` does, which refuses what it doesn't know.
    AsChecked,
    /// Steps.
    Steps,
    /// A journal.
    Journal,
    /// A shape for an audit.
    Given,
    /// The command doesn't take it.
    NotTaken,
    /// The line `@run`, which commands follow.
    Commands,
}

/// What each command makes of an opening.
pub(crate) fn role_of(purpose: Purpose, opening: Option<Opening>) -> Role
    ensures { result ≡ role_of purpose opening }
{
    match (purpose, opening) {
        (Purpose::Play, Some(Opening::Steps)) => Role::Steps,
        (Purpose::Run, Some(Opening::Shape)) => Role::NotTaken,
        (Purpose::Run, Some(Opening::Run)) => Role::Commands,
        (Purpose::Audit, Some(Opening::Shape)) => Role::Given,
        (Purpose::Audit, Some(Opening::AccessList)) => Role::NotTaken,
        (Purpose::Audit, Some(Opening::Journal)) => Role::Journal,
        _ => Role::AsChecked,
    }
}

/// Whether a part of this role comes to the end of the script.
pub(crate) fn is_last(role: Role) -> bool
    ensures { result ≡ is_last role }
{
    match role {
        Role::Commands => true,
        _ => false,
    }
}

/// Which command the text of a script is for.
pub(crate) fn purpose_in(text: &str) -> Purpose
    ensures { (script : OpenedText) → opened text.now ≡ Ok script → result ≡ purpose_of script.sections }
{
    match open(text) {
        Ok(script) => purpose_of(Parts::of(script.sections)),
        Err(_) => Purpose::Play,
    }
}
