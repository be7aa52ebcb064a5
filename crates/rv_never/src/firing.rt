//! What comes of it that a line fires.

ghost use Rattle.std.specs.Prelude.{◌≡◌, Some, IfOk, string_bytes};
ghost use Rattle.rv_text.specs.Names.{dotted};
ghost use Rattle.rv_shape.specs.Readers.{target_of};
ghost use Rattle.rv_never.specs.Denied.{names_of};
ghost use Rattle.rv_never.specs.Firings.{by_grant, by_handler, firing_of};
ghost use Rattle.rv_never.specs.Telling as says;

use crate::denied::{INTERRUPTS, suspension_name};
use crate::judge::is_handler_low;
use crate::words::{line_above_words, line_denied_words, warning};
use rv_access::{AccessList, decide};
use rv_shape::actor::Callee;
use rv_shape::catalogue::Catalogue;
use std::alloc::{AllocError, Global};

/// What comes of it that a line fires.
#[derive(Clone, Copy, Drop)]
pub enum Firing {
    /// The line has no handler (C.3.1).
    Unattached,
    /// The list denies the handler to `Interrupts`: the number of the line of the list that does, or 0 where none grants it.
    Denied(usize),
    /// The ceiling of the handler's object is below the line's priority (D.3).
    TooLow,
    /// Neither forbids the call.
    Passes,
}

// What comes of it by the list's decision.
fn by_grant(granted: bool, number: usize, low: bool) -> Firing
    ensures { result ≡ by_grant granted number low }
{
    if !granted {
        return Firing::Denied(number);
    }
    if low { Firing::TooLow } else { Firing::Passes }
}

// What comes of it by the names of the handler.
fn by_names(
    list: &AccessList,
    clock: u64,
    low: bool,
    unit: &str,
    object: &str,
    operation: &str,
) -> Firing
    ensures { result ≡ by_handler list.now clock low (Some (dotted unit.now object.now, operation.now)) }
{
    let (granted, number) = decide(list, INTERRUPTS, unit, object, operation, clock);
    by_grant(granted, number, low)
}

// What comes of it by the handler.
fn by_handler(list: &AccessList, clock: u64, low: bool, handler: &Callee<'_>) -> Firing
    ensures { result ≡ by_handler list.now clock low (names_of (target_of handler.now)) }
{
    match *handler {
        Callee::Nowhere => Firing::Unattached,
        Callee::Protected(shape, object, operation) => by_names(
            list,
            clock,
            low,
            shape.name(),
            object.name(),
            operation.name(),
        ),
        Callee::Suspension(shape, object, operation) => by_names(
            list,
            clock,
            low,
            shape.name(),
            object.name(),
            suspension_name(operation),
        ),
    }
}

/// What comes of it that a line, 0 .. 9, fires at a tick: the list is asked first, and then the ceiling. Whether others hold the
/// object isn't looked at.
pub fn firing_of(catalogue: &Catalogue, list: &AccessList, clock: u64, line: u8) -> Firing
    ensures { result ≡ firing_of catalogue.now list.now clock line }
{
    match catalogue.handler(usize::from(line)) {
        Some((object, operation)) => by_handler(
            list,
            clock,
            is_handler_low(catalogue, line),
            &catalogue.callee(object, operation),
        ),
        None => Firing::Unattached,
    }
}

/// The same as a line for people, as `warning: Int_3 calls Press.Guard.Trip as Interrupts, which no line grants`; empty where
/// neither the list nor the ceiling forbids it. Err where memory was refused.
pub fn firing_text(
    alloc: Global,
    catalogue: &Catalogue,
    list: &AccessList,
    clock: u64,
    line: u8,
) -> Result<String, AllocError>
    ensures { IfOk result (λ text. string_bytes text ≡ says.firing_text catalogue.now list.now clock line) }
{
    match firing_of(catalogue, list, clock, line) {
        Firing::Passes => Ok(String::new(alloc)),
        Firing::Unattached => format!(in alloc; "warning: Int_{line} has no handler\n"),
        Firing::Denied(_) => {
            let words = line_denied_words(alloc, catalogue, list, clock, line)?;
            warning(alloc, words.as_str())
        }
        Firing::TooLow => {
            let words = line_above_words(alloc, catalogue, line)?;
            warning(alloc, words.as_str())
        }
    }
}
