//! The rows of a list over the units that are loaded.

ghost use Rattle.std.specs.Prelude.{◌≡◌, ◌++◌, OnOk, codes, length, option_copied, option_map, string_bytes, suc};
ghost use Rattle.rv_shape.specs.Catalogue.{all_objects, place, target};
ghost use Rattle.rv_shape.specs.Readers.{target_of};
ghost use Rattle.rv_rights.specs.Rights.{call_of, grants_of, is_handled, operation_count, rights_at, rights_below, rights_of, rights_of_lines, rights_of_units, rights_on, takes_unit, told_of};

use crate::wish::Wish;
use rv_access::AccessList;
use rv_grants::{Asking, Both, put_differences, put_grants};
use rv_shape::actor::Callee;
use rv_shape::catalogue::Catalogue;
use rv_shape::object::Object;
use rv_shape::shape::UnitShape;
use rv_text::is_same_name;
use std::alloc::{AllocError, Global};

// Whether a unit is taken: without a word each is.
fn takes_unit(by: Option<&str>, unit: &str) -> bool
    ensures { result ≡ takes_unit (option_map (λ word. word.now) by.entry) unit.now }
{
    match by {
        Some(word) => is_same_name(word, unit),
        None => true,
    }
}

// Puts what a list grants of a call behind a text; with another list, where one of the two grants it and the other doesn't.
fn put_told(
    alloc: Global,
    text: &mut String,
    list: &AccessList,
    other: Option<&AccessList>,
    asking: &Asking<'_>,
) -> Result<(), AllocError>
    ensures { OnOk result (string_bytes text.new ≡ string_bytes text.old ++ told_of list.now (option_copied other.entry) asking.now) }
{
    match other {
        Some(other) => put_differences(alloc, text, Both { one: list, other }, asking),
        None => put_grants(alloc, text, list, asking),
    }
}

// The same of a call of a target by a unit, if there is such an operation.
fn put_grants_of(
    alloc: Global,
    text: &mut String,
    list: &AccessList,
    other: Option<&AccessList>,
    callee: &Callee<'_>,
    caller: &str,
    as_json: bool,
) -> Result<(), AllocError>
    ensures { OnOk result (string_bytes text.new ≡ string_bytes text.old
        ++ grants_of list.now (option_copied other.entry) (call_of as_json caller.now (target_of callee.now))) }
{
    match *callee {
        Callee::Nowhere => Ok(()),
        Callee::Protected(shape, object, operation) => put_told(
            alloc,
            text,
            list,
            other,
            &Asking {
                caller,
                unit: shape.name(),
                object: object.name(),
                operation: operation.name(),
                as_json,
            },
        ),
        Callee::Suspension(shape, object, operation) => {
            let operation = format!(in alloc; "{operation}")?;
            put_told(
                alloc,
                text,
                list,
                other,
                &Asking {
                    caller,
                    unit: shape.name(),
                    object: object.name(),
                    operation: operation.as_str(),
                    as_json,
                },
            )
        }
    }
}

// The same, where the filter takes the unit.
fn put_rights_of(
    alloc: Global,
    text: &mut String,
    wish: &Wish<'_>,
    list: &AccessList,
    other: Option<&AccessList>,
    callee: &Callee<'_>,
    caller: &str,
) -> Result<(), AllocError>
    ensures { OnOk result (string_bytes text.new ≡ string_bytes text.old ++ rights_of wish.now list.now (option_copied other.entry) (target_of callee.now) caller.now) }
{
    if takes_unit(wish.filter.by, caller) {
        return put_grants_of(alloc, text, list, other, callee, caller, wish.as_json);
    }
    Ok(())
}

// The same of units.
fn put_rights_of_units(
    alloc: Global,
    text: &mut String,
    wish: &Wish<'_>,
    list: &AccessList,
    other: Option<&AccessList>,
    callee: &Callee<'_>,
    shapes: &[UnitShape],
) -> Result<(), AllocError>
    ensures { OnOk result (string_bytes text.new ≡ string_bytes text.old ++ rights_of_units wish.now list.now (option_copied other.entry) (target_of callee.now) shapes.now) }
{
    let [shape, shapes @ ..] = shapes else {
        return Ok(());
    };
    put_rights_of(alloc, text, wish, list, other, callee, shape.name())?;
    put_rights_of_units(alloc, text, wish, list, other, callee, shapes)
}

// Whether a target is a handler (C.3).
fn is_handled(callee: &Callee<'_>) -> bool
    ensures { result ≡ is_handled (target_of callee.now) }
{
    match *callee {
        Callee::Protected(_, _, operation) => operation.kind().is_handler(),
        Callee::Nowhere => false,
        Callee::Suspension(_, _, _) => false,
    }
}

// The same of the lines.
fn put_rights_of_lines(
    alloc: Global,
    text: &mut String,
    wish: &Wish<'_>,
    list: &AccessList,
    other: Option<&AccessList>,
    callee: &Callee<'_>,
) -> Result<(), AllocError>
    ensures { OnOk result (string_bytes text.new ≡ string_bytes text.old ++ rights_of_lines wish.now list.now (option_copied other.entry) (target_of callee.now)) }
{
    if is_handled(callee) {
        return put_rights_of(alloc, text, wish, list, other, callee, "Interrupts");
    }
    Ok(())
}

// The same of all, of an operation, where the filter takes that.
fn put_rights_at(
    alloc: Global,
    text: &mut String,
    wish: &Wish<'_>,
    list: &AccessList,
    other: Option<&AccessList>,
    shapes: &[UnitShape],
    callee: &Callee<'_>,
) -> Result<(), AllocError>
    ensures { OnOk result (string_bytes text.new ≡ string_bytes text.old ++ rights_at wish.now list.now (option_copied other.entry) shapes.now (target_of callee.now)) }
{
    if !wish.filter.takes_of(alloc, callee)? {
        return Ok(());
    }
    put_rights_of_units(alloc, text, wish, list, other, callee, shapes)?;
    put_rights_of_lines(alloc, text, wish, list, other, callee)
}

// How many operations an object has, if there is one of this number.
fn operation_count(catalogue: &Catalogue, object: usize) -> usize
    ensures { result ≡ operation_count (place catalogue.now object) }
{
    match catalogue.object(object) {
        Some((_, Object::Protected(protected))) => protected.operations().len(),
        Some((_, Object::Suspension(_))) => 4,
        None => 0,
    }
}

// The same of an object.
fn put_rights_on(
    alloc: Global,
    text: &mut String,
    wish: &Wish<'_>,
    list: &AccessList,
    other: Option<&AccessList>,
    catalogue: &Catalogue,
    object: usize,
) -> Result<(), AllocError>
    ensures { OnOk result (string_bytes text.new ≡ string_bytes text.old
        ++ rights_on wish.now list.now (option_copied other.entry) catalogue.now object (operation_count (place catalogue.now object))) }
{
    let count = operation_count(catalogue, object);
    for operation in 0..count {
        let callee = catalogue.callee(object, operation + 1);
        put_rights_at(alloc, text, wish, list, other, catalogue.shapes(), &callee)?;
    }
    Ok(())
}

/// Puts what all are granted behind a text, of which the filter takes what is called and who calls. Err where memory was refused.
pub fn put_rights(
    alloc: Global,
    text: &mut String,
    wish: &Wish<'_>,
    list: &AccessList,
    other: Option<&AccessList>,
    catalogue: &Catalogue,
) -> Result<(), AllocError>
    ensures { OnOk result (string_bytes text.new ≡ string_bytes text.old
        ++ rights_below wish.now list.now (option_copied other.entry) catalogue.now (length (all_objects catalogue.now))) }
{
    let count = catalogue.objects();
    for object in 0..count {
        put_rights_on(alloc, text, wish, list, other, catalogue, object + 1)?;
    }
    Ok(())
}
