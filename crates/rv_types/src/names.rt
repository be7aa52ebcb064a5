//! What declarations are in a body.

ghost use Rattle.std.specs.Prelude.{◌≡◌, ◌<◌, MatchOption};
ghost use Rattle.std.specs.Option.{option_map};
ghost use Rattle.rv_types.specs.Points.{indexed as operation_indexed, operation_at as operation_of_indexes, loaded_operation as loaded_operation_of, object_from, object_number as number_of_object, called_kind as denoted_kind, called_as as denoted_operation, outer_callee as callee_outside, inner_callee as callee_inside, inner_operation as operation_inside, outer_operation as operation_outside, loaded_callee as callee_loaded, known_value as value_known, known_suspension as suspension_known, loaded_suspension as suspension_loaded, predefined_value as value_predefined, denoted_by as denoted_of, known_parameters as parameters_known, profile_of as profile_of_found};

use crate::denoted::{Denoted, SuspensionOperation};
use crate::point::Point;
use rv_code::Callee;
use rv_event::entry::Exception;
use rv_scope::{Declared, Known, OperationKind, Predefined};
use rv_shape::catalogue::Catalogue;
use rv_shape::kind::{Kind, Parameter};
use rv_shape::object::{Operation, ProtectedObject};

// The operation of an index.
fn indexed(operations: &[Operation], index: usize) -> Option<&Operation>
    ensures value { option_map (λ o. o.now) result ≡ operation_indexed operations.now index }
    ensures small { MatchOption result (Unit {0}) (λ _. index < 4294967296) }
{
    if index < 4294967296 {
        operations.get(index)
    } else {
        None
    }
}

// The operation of an index of the protected unit of a number.
fn operation_at(units: &[ProtectedObject], number: usize, index: usize) -> Option<&Operation>
    ensures value { option_map (λ o. o.now) result ≡ operation_of_indexes units.now number index }
    ensures small { MatchOption result (Unit {0}) (λ _. index < 4294967296) }
{
    match units.get(number) {
        Some(unit) => indexed(unit.operations(), index),
        None => None,
    }
}

// The operation of these indexes of a loaded unit.
fn loaded_operation(
    catalogue: &Catalogue,
    unit: usize,
    object: usize,
    index: usize,
) -> Option<&Operation>
    ensures value { option_map (λ o. o.now) result ≡ loaded_operation_of catalogue.now unit object index }
    ensures small { MatchOption result (Unit {0}) (λ _. index < 4294967296) }
{
    let Some(shape) = catalogue.shapes().get(unit) else {
        return None;
    };
    match shape.objects().get(object) {
        Some(found) => indexed(found.operations(), index),
        None => None,
    }
}

// The number of an object of a loaded unit.
fn object_number(catalogue: &Catalogue, unit: usize, object: usize) -> Option<usize>
    ensures { result ≡ number_of_object catalogue.now unit object }
{
    let mut first: usize = 1;
    let mut left = unit;
    for shape in catalogue.shapes() {
        let count = shape.objects().len();
        if left == 0 {
            return if object < count {
                Some(first + object)
            } else {
                None
            };
        }
        if count >= 4294967296 - first {
            return None;
        }
        first += count;
        left -= 1;
    }
    None
}

// What is called, by its kind.
fn called_kind(callee: Callee, kind: Kind) -> Denoted
    ensures { result ≡ denoted_kind callee kind }
{
    match kind {
        Kind::Function(range) => Denoted::Function(callee, range),
        _ => Denoted::Procedure(callee),
    }
}

// An operation of an object, which is asked of the host.
fn outer_callee(of: OperationKind, object: usize, index: usize) -> Callee
    requires { index < 4294967296 }
    ensures { result ≡ callee_outside of object index }
{
    match of {
        OperationKind::Function => Callee::Function(object, index + 1),
        OperationKind::Procedure => Callee::Procedure(object, index + 1),
        OperationKind::Entry => Callee::Entry(object, index + 1),
    }
}

// An operation of the protected unit around the point.
fn inner_callee(of: OperationKind, index: usize) -> Callee
    requires { index < 4294967296 }
    ensures { result ≡ callee_inside of index }
{
    match of {
        OperationKind::Function | OperationKind::Procedure => Callee::Internal(index + 1),
        OperationKind::Entry => Callee::OwnEntry(index + 1),
    }
}

// An operation that is known, as one of the protected unit around the point.
fn inner_operation(point: &Point, of: OperationKind, known: Option<Known>) -> Denoted
    ensures { result ≡ operation_inside point.now of known }
{
    let Some(Known::Operation(number, index)) = known else {
        return Denoted::Other;
    };
    match operation_at(point.outline().units(), number, index) {
        None => Denoted::Other,
        Some(operation) => called_kind(inner_callee(of, index), operation.kind()),
    }
}

// An operation that is known, as one of an object that is known.
fn outer_operation(
    point: &Point,
    of: OperationKind,
    object: Option<Known>,
    known: Option<Known>,
) -> Denoted
    ensures { result ≡ operation_outside point.now of object known }
{
    let Some(Known::Object(object)) = object else {
        return Denoted::Other;
    };
    let Some(Known::Operation(number, index)) = known else {
        return Denoted::Other;
    };
    match operation_at(point.outline().units(), number, index) {
        None => Denoted::Other,
        Some(operation) => called_kind(outer_callee(of, object, index), operation.kind()),
    }
}

// An operation of an object of a loaded unit, by the number of the object.
fn loaded_callee(
    of: OperationKind,
    index: usize,
    object: Option<usize>,
    operation: Option<&Operation>,
) -> Denoted
    requires { MatchOption operation (Unit {0}) (λ _. index < 4294967296) }
    ensures { result ≡ callee_loaded of index object (option_map (λ o. o.now) operation.entry) }
{
    let Some(object) = object else {
        return Denoted::Other;
    };
    match operation {
        None => Denoted::Other,
        Some(operation) => called_kind(outer_callee(of, object, index), operation.kind()),
    }
}

// An object of the body, or a component.
fn known_value(known: Option<Known>) -> Denoted
    ensures { result ≡ value_known known }
{
    match known {
        Some(Known::Variable(slot, range, is_written)) => Denoted::Variable(
            slot, range, is_written,
        ),
        Some(Known::Component(index, range)) => Denoted::Component(index, range),
        _ => Denoted::Other,
    }
}

fn known_suspension(known: Option<Known>) -> Denoted
    ensures { result ≡ suspension_known known }
{
    match known {
        Some(Known::Object(object)) => Denoted::Suspension(object),
        _ => Denoted::Other,
    }
}

fn loaded_suspension(object: Option<usize>) -> Denoted
    ensures { result ≡ suspension_loaded object }
{
    match object {
        Some(object) => Denoted::Suspension(object),
        None => Denoted::Other,
    }
}

// A declaration of a library package.
fn predefined_value(item: Predefined) -> Denoted
    ensures { result ≡ value_predefined item }
{
    match item {
        Predefined::Clock => Denoted::Clock,
        Predefined::SetTrue => Denoted::Setter(SuspensionOperation::SetTrue),
        Predefined::SetFalse => Denoted::Setter(SuspensionOperation::SetFalse),
        Predefined::SuspendUntilTrue => Denoted::Setter(SuspensionOperation::SuspendUntilTrue),
        Predefined::CurrentState => Denoted::CurrentState,
        Predefined::ConstraintError => Denoted::Exception(Exception::ConstraintError),
        Predefined::ProgramError => Denoted::Exception(Exception::ProgramError),
        Predefined::AccessDenied => Denoted::Exception(Exception::AccessDenied),
        _ => Denoted::Other,
    }
}

/// What a declaration is in a body.
pub(crate) fn denoted_by(point: &Point, found: Option<Declared>) -> Denoted
    ensures { result ≡ denoted_of point.now found }
{
    let table = point.outline().known();
    match found {
        Some(
            Declared::Constant(at)
            | Declared::Variable(at)
            | Declared::Parameter(at)
            | Declared::LoopParameter(at)
            | Declared::Component(at),
        ) => known_value(point.known(at)),
        Some(Declared::Operation(at, of)) => inner_operation(point, of, table.find(at)),
        Some(Declared::ObjectOperation(object, at, of)) => {
            outer_operation(point, of, table.find(object), table.find(at))
        }
        Some(Declared::UnitOperation(unit, object, index, of)) => {
            let operation = loaded_operation(point.catalogue(), unit, object, index);
            let number = object_number(point.catalogue(), unit, object);
            loaded_callee(of, index, number, operation)
        }
        Some(Declared::Suspension(at)) => known_suspension(table.find(at)),
        Some(Declared::UnitSuspension(unit, object)) => {
            loaded_suspension(object_number(point.catalogue(), unit, object))
        }
        Some(Declared::Predefined(item)) => predefined_value(item),
        _ => Denoted::Other,
    }
}

// The parameters of an operation that is known.
fn known_parameters<'p>(point: &'p Point, known: Option<Known>) -> &'p [Parameter]
    ensures { result.now ≡ parameters_known point.now known }
{
    let Some(Known::Operation(number, index)) = known else {
        return &[];
    };
    match operation_at(point.outline().units(), number, index) {
        None => &[],
        Some(operation) => operation.parameters(),
    }
}

/// The parameters of the operation that a declaration is.
pub(crate) fn profile_of<'p>(point: &'p Point, found: Option<Declared>) -> &'p [Parameter]
    ensures { result.now ≡ profile_of_found point.now found }
{
    let table = point.outline().known();
    match found {
        Some(Declared::Operation(at, _)) => known_parameters(point, table.find(at)),
        Some(Declared::ObjectOperation(_, at, _)) => known_parameters(point, table.find(at)),
        Some(Declared::UnitOperation(unit, object, index, _)) => {
            match loaded_operation(point.catalogue(), unit, object, index) {
                None => &[],
                Some(operation) => operation.parameters(),
            }
        }
        _ => &[],
    }
}
