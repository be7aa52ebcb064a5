//! The line of a changed decision.

ghost use Rattle.std.specs.Prelude.{◌≡◌, ◌∷◌, ◌++◌, [], IfOk, OnOk, codes, option_copied, string_bytes};
ghost use Rattle.std.specs.Fmt.{decimal};
ghost use Rattle.rv_access.specs.Lines.{allows, line_at};
ghost use Rattle.rv_shape.specs.Printed.{actor_text, target_text};
ghost use Rattle.rv_shape.specs.Readers.{target_of, who_of};
ghost use Rattle.rv_history.specs.History.{force};
ghost use Rattle.rv_grants.specs.Grants.{decision_text};
ghost use Rattle.rv_whatif.specs.Changes.{is_one_of};

use rv_access::{AccessList, Line};
use rv_asked::deciding::line_in_force;
use rv_grants::decision_text;
use rv_host::host::Host;
use rv_shape::actor::{Actor, Callee};
use std::alloc::{AllocError, Global};

// Whether there is a line, and it allows.
fn allows(line: Option<&Line>) -> bool
    ensures { result ≡ allows (option_copied line.entry) }
{
    match line {
        Some(line) => line.allows(),
        None => false,
    }
}

/// Whether one of two is so, and not the other.
pub fn is_one_of(one: bool, other: bool) -> bool
    ensures { result ≡ is_one_of one other }
{
    one != other
}

/// Whether the list has a line of a number, and it allows.
pub fn allows_at(list: &AccessList, number: usize) -> bool
    ensures { result ≡ allows (line_at list.now number) }
{
    allows(list.line(number))
}

/// Whether the list in force has a line of a number, and it allows.
pub fn allows_in_force(host: &Host, number: usize) -> bool
    ensures { result ≡ allows (line_at (force host.now) number) }
{
    allows(line_in_force(host, number))
}

/// What the line of a number of a list would decide, and what one of the list in force did, in words. Err where memory was refused.
pub fn decisions_text(
    alloc: Global,
    host: &Host,
    list: &AccessList,
    would: usize,
    was: usize,
) -> Result<String, AllocError>
    ensures { IfOk result (λ text. string_bytes text ≡ decision_text (line_at list.now would)
        ++ (codes ", was " ++ decision_text (line_at (force host.now) was))) }
{
    let would = decision_text(alloc, list.line(would))?;
    let was = decision_text(alloc, line_in_force(host, was))?;
    let would = would.as_str();
    let was = was.as_str();
    format!(in alloc; "{would}, was {was}")
}

/// Puts a line: how the list is asked about a call at an entry, and what is decided. Err where memory was refused.
pub fn put_line(
    text: &mut String,
    number: usize,
    tick: u64,
    who: &Actor<'_>,
    how: &str,
    called: &Callee<'_>,
    decisions: &str,
) -> Result<(), AllocError>
    ensures { OnOk result (string_bytes text.new ≡ string_bytes text.old ++ (decimal number ++ (codes " tick " ++ (decimal tick
        ++ 32 ∷ (actor_text (who_of who.now) ++ 32 ∷ (how.now ++ (target_text (target_of called.now) ++ (codes " -> " ++ (decisions.now
        ++ 10 ∷ []))))))))) }
{
    write!(
        text,
        "{number} tick {tick} {who} {how}{called} -> {decisions}\n"
    )
}

/// Whose call it is, for the list, and of what. Err where memory was refused.
pub fn call_words(alloc: Global, subject: &str, called: &Callee<'_>) -> Result<String, AllocError>
    ensures { IfOk result (λ words. string_bytes words ≡ subject.now ++ 32 ∷ target_text (target_of called.now)) }
{
    format!(in alloc; "{subject} {called}")
}
