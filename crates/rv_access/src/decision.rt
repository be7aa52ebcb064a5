//! Which line of a list decides at a tick.

ghost use Rattle.std.specs.Prelude.{◌≡◌};
ghost use Rattle.rv_text.specs.Names.{dotted};
ghost use Rattle.rv_access.specs.Lines.{fits, matches, decides, grants};

use crate::line::Line;
use crate::list::AccessList;
use rv_text::{is_dotted_name, is_same_name};

/// Whether the word of a line is `*` or the name, case ignored (2.3).
#[inline(always)]
pub fn fits(word: &str, name: &str) -> bool
    ensures { result ≡ fits word.now name.now }
{
    word == "*" || is_same_name(word, name)
}

/// Whether the word of a line is `*` or `unit.object`, case ignored (2.3).
#[inline(always)]
pub fn fits_object(word: &str, unit: &str, object: &str) -> bool
    ensures { result ≡ fits word.now (dotted unit.now object.now) }
{
    word == "*" || is_dotted_name(word, unit, object)
}

// Whether each of the three words of a line is `*` or the name, and its window is open at the tick.
fn matches(line: &Line, caller: &str, unit: &str, object: &str, operation: &str, tick: u64) -> bool
    ensures { result ≡ matches line.now caller.now (dotted unit.now object.now) operation.now tick }
{
    fits(line.unit(), caller)
        && fits_object(line.object(), unit, object)
        && fits(line.operation(), operation)
        && line.is_open(tick)
}

// The number of the last line that matches at the tick, or 0.
fn last_match(
    lines: &[Line],
    caller: &str,
    unit: &str,
    object: &str,
    operation: &str,
    tick: u64,
) -> usize
    ensures { result ≡ decides lines.now caller.now (dotted unit.now object.now) operation.now tick }
{
    let mut last = 0;
    for (i, line) in lines.iter().enumerate() {
        if matches(line, caller, unit, object, operation, tick) {
            last = i + 1;
        }
    }
    last
}

/// Whether the list grants to the unit of a caller a call of an operation of the object
/// `unit.object` at a tick, and the number of the line that decides: the last one whose three words each are
/// `*` or the name, case ignored, and whose window, if it has one, is open at that tick. Where none is, the call is
/// denied with line 0.
pub fn decide(
    list: &AccessList,
    caller: &str,
    unit: &str,
    object: &str,
    operation: &str,
    tick: u64,
) -> (bool, usize)
    ensures line { result.1 ≡ decides list.now caller.now (dotted unit.now object.now) operation.now tick }
    ensures granted { result.0 ≡ grants list.now caller.now (dotted unit.now object.now) operation.now tick }
{
    let number = last_match(list.lines(), caller, unit, object, operation, tick);
    match list.line(number) {
        Some(line) => (line.allows(), number),
        None => (false, number),
    }
}
