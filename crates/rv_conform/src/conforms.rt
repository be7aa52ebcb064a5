//! Which operations conform to each other (4.9.1, 6.3.1).

ghost use Rattle.std.specs.Prelude.{◌≡◌};
ghost use Rattle.std.specs.List.{list_any};
ghost use Rattle.rv_conform.specs.Conforms.{is_same_kind as same_kind, is_in as in_mode, is_same_mode as same_mode, is_one_subtype as one_subtype, is_same_range as same_range, have_same_range as same_ranges, match_statically as marks_match, formal_conforms as formal_is_same, formals_conform as formals_are_same, results_conform as results_are_same, completes as completes_operation, is_declared as declared_among};

use crate::mark::Mark;
use crate::operation::{Formal, Operation};
use rv_scope::declared::OperationKind;
use rv_shape::kind::Range;
use rv_static::same_type;
use rv_text::is_same_name;
use rv_tree::declaration::Mode;

fn is_same_kind(one: OperationKind, other: OperationKind) -> bool
    ensures { result ≡ same_kind one other }
{
    matches!(
        (one, other),
        (OperationKind::Function, OperationKind::Function)
            | (OperationKind::Procedure, OperationKind::Procedure)
            | (OperationKind::Entry, OperationKind::Entry)
    )
}

// A mode that is not written is `in`.
fn is_same_mode(one: Mode, other: Mode) -> bool
    ensures { result ≡ same_mode one other }
{
    match (one, other) {
        (Mode::Out, Mode::Out) | (Mode::InOut, Mode::InOut) => true,
        _ => is_in(one) && is_in(other),
    }
}

fn is_in(mode: Mode) -> bool
    ensures { result ≡ in_mode mode }
{
    matches!(mode, Mode::NotWritten | Mode::In)
}

fn is_same_range(one: Range, other: Range) -> bool
    ensures { result ≡ same_range one other }
{
    same_type(one.of, other.of)
        && (one.low <= other.low && other.low <= one.low)
        && (one.high <= other.high && other.high <= one.high)
}

fn have_same_range(one: Option<Range>, other: Option<Range>) -> bool
    ensures { result ≡ same_ranges one other }
{
    match one {
        Some(range) => match other {
            Some(other) => is_same_range(range, other),
            None => false,
        },
        None => false,
    }
}

// Whether both are the subtype of one place.
fn is_one_subtype(one: Option<usize>, other: Option<usize>) -> bool
    ensures { result ≡ one_subtype one other }
{
    match one {
        Some(at) => match other {
            Some(other) => at == other,
            None => false,
        },
        None => false,
    }
}

// Whether two marks match statically: they denote one subtype, or ranges of one type with the same bounds.
fn match_statically(one: Mark, other: Mark) -> bool
    ensures { result ≡ marks_match one other }
{
    is_one_subtype(one.declared, other.declared) || have_same_range(one.range, other.range)
}

fn formal_conforms(one: &Formal, other: &Formal) -> bool
    ensures { result ≡ formal_is_same one.now other.now }
{
    is_same_name(one.name, other.name)
        && is_same_mode(one.mode, other.mode)
        && match_statically(one.mark, other.mark)
}

fn formals_conform(list: &[Formal], others: &[Formal]) -> bool
    ensures { result ≡ formals_are_same list.now others.now }
{
    if list.len() != others.len() {
        return false;
    }
    for (index, one) in list.iter().enumerate() {
        let Some(other) = others.get(index) else {
            return false;
        };
        if !formal_conforms(one, other) {
            return false;
        }
    }
    true
}

fn results_conform(one: Option<Mark>, other: Option<Mark>) -> bool
    ensures { result ≡ results_are_same one other }
{
    match one {
        Some(mark) => match other {
            Some(other) => match_statically(mark, other),
            None => false,
        },
        None => other.is_none(),
    }
}

// Whether a body completes what is declared.
fn completes(body: &Operation, declared: &Operation) -> bool
    ensures { result ≡ completes_operation body.now declared.now }
{
    is_same_name(declared.name.text.as_str(), body.name.text.as_str())
        && is_same_kind(declared.kind, body.kind)
        && formals_conform(declared.formals.as_slice(), body.formals.as_slice())
        && results_conform(declared.result_mark, body.result_mark)
}

/// Whether one of the operations is declared as the body has it.
pub(crate) fn is_declared(operations: &Vec<Operation>, body: &Operation) -> bool
    ensures { result ≡ declared_among operations.now.items body.now }
{
    for declared in operations {
        if completes(body, declared) {
            return true;
        }
    }
    false
}
