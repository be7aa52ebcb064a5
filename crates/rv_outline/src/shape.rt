//! The shape of a unit from what its declarations mean (9.1, 9.4, C.3.1, D.3, D.10).

ghost use Rattle.std.specs.Prelude.{◌≡◌, OnOk, IfOk, ◌+◌, map, take, string_bytes, []};
ghost use Rattle.std.specs.List.{list_any};
ghost use Rattle.rv_shape.specs.Kinds.{is_handler};
ghost use Rattle.rv_shape.specs.Limits.{most_objects, most_operations, most_components, most_parameters};
ghost use Rattle.rv_scope.specs.ByPlace.{at_place};
ghost use Rattle.rv_outline.specs.Shapes.{default_ceiling as ceiling_by_default, kind_or, operation_shape as shape_of_operation, operation_shapes as shapes_of_operations, unit_with, unit_shape as shape_of_unit, cut_operation as operation_cut, protected_object as object_of_unit, suspension_object as suspension_of, with_object, objects_onto};

use crate::draft::{Draft, Kinds, ObjectDraft, OperationDraft, UnitDraft};
use crate::outline::ObjectType;
use rv_shape::kind::{Component, Kind, Parameter};
use rv_shape::object::{Object, Operation, ProtectedObject, SuspensionObject};
use std::alloc::{AllocError, Global};

// The ceiling of a protected object that is given none.
fn default_ceiling(has_handler: bool) -> usize
    ensures { result ≡ ceiling_by_default has_handler }
{
    if has_handler { 40 } else { 30 }
}

// The kind of an operation.
fn kind(kinds: &Kinds, draft: &OperationDraft) -> Kind
    ensures { result ≡ kind_or draft.now.operation.kind (at_place kinds.now draft.now.at) }
{
    match kinds.find(draft.at) {
        None => draft.operation.kind(),
        Some(kind) => kind,
    }
}

// An operation with its kind.
fn operation(alloc: Global, kinds: &Kinds, draft: &OperationDraft) -> Result<Operation, AllocError>
    ensures { IfOk result (λ o. o ≡ shape_of_operation kinds.now draft.now) }
{
    let name = String::from_str(alloc, draft.operation.name())?;
    let parameters = Vec::from_slice(alloc, draft.operation.parameters())?;
    let kind = kind(kinds, draft);
    Ok(Operation::new(name, kind, parameters, draft.operation.is_visible()))
}

fn operations(
    alloc: Global,
    kinds: &Kinds,
    drafts: &Vec<OperationDraft>,
) -> Result<Vec<Operation>, AllocError>
    ensures { IfOk result (λ v. v.items ≡ shapes_of_operations kinds.now drafts.now.items) }
{
    let mut done = Vec::new(alloc);
    for draft in drafts {
        let one = operation(alloc, kinds, draft)?;
        done.push(one)?;
    }
    Ok(done)
}

// Whether one of these operations is a handler.
fn has_handler(operations: &Vec<Operation>) -> bool
    ensures { result ≡ list_any (λ operation. is_handler operation.kind) operations.now.items }
{
    for one in operations {
        if one.kind().is_handler() {
            return true;
        }
    }
    false
}

// A protected unit with these operations.
fn with_operations(
    alloc: Global,
    unit: &UnitDraft,
    operations: Vec<Operation>,
) -> Result<ProtectedObject, AllocError>
    ensures { IfOk result (λ o. o ≡ unit_with unit.now operations.items) }
{
    let ceiling = match unit.priority {
        None => default_ceiling(has_handler(&operations)),
        Some(priority) => priority,
    };
    let name = String::from_str(alloc, unit.name.as_str())?;
    let components = Vec::from_slice(alloc, unit.components.as_slice())?;
    Ok(ProtectedObject::new(name, unit.is_visible, ceiling, components, operations))
}

// A protected unit with its ceiling, components and operations.
fn unit_shape(alloc: Global, kinds: &Kinds, unit: &UnitDraft) -> Result<ProtectedObject, AllocError>
    ensures { IfOk result (λ o. o ≡ shape_of_unit kinds.now unit.now) }
{
    let operations = operations(alloc, kinds, &unit.operations)?;
    with_operations(alloc, unit, operations)
}

/// The protected units, each with its ceiling, components and operations.
pub(crate) fn unit_shapes(alloc: Global, draft: &Draft) -> Result<Vec<ProtectedObject>, AllocError>
    ensures { IfOk result (λ v. v.items ≡ map (shape_of_unit draft.now.kinds) draft.now.units) }
{
    let mut done = Vec::new(alloc);
    for unit in &draft.units {
        let one = unit_shape(alloc, &draft.kinds, unit)?;
        done.push(one)?;
    }
    Ok(done)
}

// The first of these, so many at most.
fn first_of<T>(list: &[T], most: usize) -> &[T]
    ensures { result.now ≡ take most list.now }
{
    if list.len() <= most {
        return list;
    }
    &list[..most]
}

// The first of these parameters, and one more than an operation may have.
fn cut_parameters(alloc: Global, list: &[Parameter]) -> Result<Vec<Parameter>, AllocError>
    ensures { IfOk result (λ v. v.items ≡ take (most_parameters + 1) list.now) }
{
    Vec::from_slice(alloc, first_of(list, 5))
}

// The first of these components, and one more than an object may have.
fn cut_components(alloc: Global, list: &[Component]) -> Result<Vec<Component>, AllocError>
    ensures { IfOk result (λ v. v.items ≡ take (most_components + 1) list.now) }
{
    Vec::from_slice(alloc, first_of(list, 33))
}

// A copy of an operation, cut behind the first parameter that is too many.
fn cut_operation(alloc: Global, one: &Operation) -> Result<Operation, AllocError>
    ensures { IfOk result (λ o. o ≡ operation_cut one.now) }
{
    let name = String::from_str(alloc, one.name())?;
    let parameters = cut_parameters(alloc, one.parameters())?;
    Ok(Operation::new(name, one.kind(), parameters, one.is_visible()))
}

fn cut_each(alloc: Global, list: &[Operation]) -> Result<Vec<Operation>, AllocError>
    ensures { IfOk result (λ v. v.items ≡ map operation_cut list.now) }
{
    let mut done = Vec::new(alloc);
    for one in list {
        let copy = cut_operation(alloc, one)?;
        done.push(copy)?;
    }
    Ok(done)
}

// The first of these operations, and one more than an object may have.
fn cut_operations(alloc: Global, list: &[Operation]) -> Result<Vec<Operation>, AllocError>
    ensures { IfOk result (λ v. v.items ≡ map operation_cut (take (most_operations + 1) list.now)) }
{
    cut_each(alloc, first_of(list, 17))
}

// An object of a protected unit.
fn protected_object(
    alloc: Global,
    object: &ObjectDraft,
    unit: &ProtectedObject,
) -> Result<Object, AllocError>
    ensures { IfOk result (λ o. o ≡ object_of_unit object.now unit.now) }
{
    let name = String::from_str(alloc, object.name.as_str())?;
    let components = cut_components(alloc, unit.components())?;
    let operations = cut_operations(alloc, unit.operations())?;
    Ok(Object::Protected(ProtectedObject::new(
        name,
        object.is_visible,
        unit.ceiling(),
        components,
        operations,
    )))
}

fn suspension_object(alloc: Global, object: &ObjectDraft) -> Result<Object, AllocError>
    ensures { IfOk result (λ o. o ≡ suspension_of object.now) }
{
    let name = String::from_str(alloc, object.name.as_str())?;
    Ok(Object::Suspension(SuspensionObject::new(name, object.is_visible)))
}

// An object, behind those that are there.
fn push_object(
    alloc: Global,
    object: &ObjectDraft,
    units: &[ProtectedObject],
    done: &mut Vec<Object>,
) -> Result<(), AllocError>
    ensures { OnOk result (done.new.items ≡ with_object units.now object.now object.now.of done.old.items) }
{
    match object.of {
        ObjectType::Suspension => {
            let one = suspension_object(alloc, object)?;
            done.push(one)?;
            Ok(())
        }
        ObjectType::Protected(number) => match units.get(number) {
            None => Ok(()),
            Some(unit) => {
                let one = protected_object(alloc, object, unit)?;
                done.push(one)?;
                Ok(())
            }
        },
    }
}

// The objects of these drafts.
fn each_object(
    alloc: Global,
    list: &[ObjectDraft],
    units: &[ProtectedObject],
) -> Result<Vec<Object>, AllocError>
    ensures { IfOk result (λ v. v.items ≡ objects_onto units.now list.now []) }
{
    let mut done = Vec::new(alloc);
    for object in list {
        push_object(alloc, object, units, &mut done)?;
    }
    Ok(done)
}

/// The objects of the unit, cut behind the first that is too many.
pub(crate) fn objects(
    alloc: Global,
    list: &[ObjectDraft],
    units: &[ProtectedObject],
) -> Result<Vec<Object>, AllocError>
    ensures { IfOk result (λ v. v.items ≡ objects_onto units.now (take (most_objects + 1) list.now) []) }
{
    each_object(alloc, first_of(list, 257), units)
}

/// What each object is an object of.
pub(crate) fn types(alloc: Global, list: &Vec<ObjectDraft>) -> Result<Vec<ObjectType>, AllocError>
    ensures { IfOk result (λ v. v.items ≡ map (λ o. o.of) list.now.items) }
{
    let mut done = Vec::new(alloc);
    for object in list {
        done.push(object.of)?;
    }
    Ok(done)
}
