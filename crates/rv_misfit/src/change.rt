//! Whether a change of the list can be made.

ghost use Rattle.std.specs.Prelude.{◌≡◌};
ghost use Rattle.rv_misfit.specs.Misfits.{change_misfit, line_misfit};

use crate::misfit::Misfit;
use rv_access::{Change, MOST_LINES};

// Why a line of this number never stands in a list of so many lines.
fn line_misfit(lines: usize, number: usize) -> Option<Misfit>
    ensures { result ≡ line_misfit lines number }
{
    if 1 <= number && number <= lines {
        None
    } else {
        Some(Misfit::NoLine(lines))
    }
}

/// Why a change of a list of so many lines is never made.
pub(crate) fn change_misfit(lines: usize, change: &Change) -> Option<Misfit>
    ensures { result ≡ change_misfit lines change.now }
{
    match change {
        Change::Whole(_) => None,
        Change::Append(_) if lines < MOST_LINES => None,
        Change::Append(_) => Some(Misfit::ListFull(lines)),
        Change::Remove(number) => line_misfit(lines, *number),
        Change::Replace(number, _) => line_misfit(lines, *number),
    }
}
