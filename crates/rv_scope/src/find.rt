//! What a name is found as in a list: in regions, among loaded units, their objects and operations, and library packages.

ghost use Rattle.std.specs.Prelude.{◌≡◌, map, None};
ghost use Rattle.rv_tree.specs.NameView.{name_view, identifier_view};
ghost use Rattle.rv_shape.specs.Fits.{object_name};
ghost use Rattle.rv_scope.specs.Predefined.{named};
ghost use Rattle.rv_scope.specs.Visible.{found_in as found_in_regions, index_from, library_named, flat};
ghost use Rattle.rv_scope.specs.Visible.{kind_of as operation_kind_of, object_at as object_declared, shown_operation as shown_operation_of, of_object as operation_of_object, unit_named as unit_named_of, child_library as child_library_of};

use crate::declared::{Declared, OperationKind};
use crate::predefined::Library;
use crate::region::Region;
use rv_shape::kind::Kind;
use rv_shape::object::{Object, Operation};
use rv_shape::shape::UnitShape;
use rv_text::is_same_name;
use rv_tree::name::{Identifier, Name};

// What a name denotes in the last of these regions that declares it.
pub fn found_in(name: &str, regions: &[Region]) -> Option<Option<Declared>>
    ensures { result ≡ found_in_regions name.now None regions.now }
{
    let mut found = None;
    for region in regions {
        if let Some(meaning) = region.find(name) {
            found = Some(meaning);
        }
    }
    found
}

// The index of the unit of a name.
pub fn unit_index(shapes: &[UnitShape], name: &str) -> Option<usize>
    ensures { result ≡ index_from (λ s. s.name) name.now 0 shapes.now }
{
    for (index, shape) in shapes.iter().enumerate() {
        if is_same_name(name, shape.name()) {
            return Some(index);
        }
    }
    None
}

// The index of the object of a name.
pub fn object_index(objects: &[Object], name: &str) -> Option<usize>
    ensures { result ≡ index_from object_name name.now 0 objects.now }
{
    for (index, object) in objects.iter().enumerate() {
        if is_same_name(name, object.name()) {
            return Some(index);
        }
    }
    None
}

// The index of the operation of a name.
fn operation_index(operations: &[Operation], name: &str) -> Option<usize>
    ensures { result ≡ index_from (λ o. o.name) name.now 0 operations.now }
{
    for (index, operation) in operations.iter().enumerate() {
        if is_same_name(name, operation.name()) {
            return Some(index);
        }
    }
    None
}

// The kind of an operation of a loaded unit.
fn kind_of(kind: Kind) -> OperationKind
    ensures { result ≡ operation_kind_of kind }
{
    match kind {
        Kind::Function(_) => OperationKind::Function,
        Kind::Procedure | Kind::Handler(_) => OperationKind::Procedure,
        Kind::Entry(_) => OperationKind::Entry,
    }
}

// An object of a loaded unit, by the indexes of the two.
pub fn object_at(unit: usize, index: usize, object: &Object) -> Declared
    ensures { result ≡ object_declared unit index object.now }
{
    match object {
        Object::Protected(_) => Declared::UnitObject(unit, index),
        Object::Suspension(_) => Declared::UnitSuspension(unit, index),
    }
}

// An operation before `private` of this name, of the object of these indexes.
pub fn shown_operation(
    unit: usize,
    object: usize,
    operations: &[Operation],
    name: &str,
) -> Option<Declared>
    ensures { result ≡ shown_operation_of unit object operations.now name.now }
{
    let index = operation_index(operations, name)?;
    let operation = operations.get(index)?;
    if !operation.is_visible() {
        return None;
    }
    let kind = kind_of(operation.kind());
    Some(Declared::UnitOperation(unit, object, index, kind))
}

// An operation as one of an object of this place, seen from outside.
pub fn of_object(object: usize, operation: Declared) -> Option<Declared>
    ensures { result ≡ operation_of_object object operation }
{
    match operation {
        Declared::Operation(at, kind) => Some(Declared::ObjectOperation(object, at, kind)),
        _ => None,
    }
}

// The child package that a name ends at, from a package on.
fn child_library(library: Library, more: &[Identifier]) -> Option<Library>
    ensures { result ≡ child_library_of (Some library) (map identifier_view more.now) }
{
    let mut found = Some(library);
    for identifier in more {
        found = match found {
            Some(prefix) => prefix.child(identifier.text.as_str()),
            None => None,
        };
    }
    found
}

// The library package of a name.
pub fn library_named(name: &Name) -> Option<Library>
    ensures { result ≡ library_named (name_view name.now) }
{
    let library = Library::root(name.first.text.as_str())?;
    child_library(library, name.more.as_slice())
}

// The loaded unit of a name.
pub fn unit_named(shapes: &[UnitShape], name: &Name) -> Option<usize>
    ensures { result ≡ unit_named_of shapes.now (name_view name.now) }
{
    if name.more.is_empty() {
        unit_index(shapes, name.first.text.as_str())
    } else {
        None
    }
}

// What a region declares by a name.
pub fn declared_in(region: &Region, name: &str) -> Option<Declared>
    ensures { result ≡ flat (named name.now region.now) }
{
    match region.find(name) {
        Some(meaning) => meaning,
        None => None,
    }
}
