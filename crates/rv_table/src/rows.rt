//! The rows of all callers, and of all operations.

ghost use Rattle.std.specs.Prelude.{◌≡◌, ◌≤◌, ◌++◌, ◌∷◌, [], ℕ, List, length, map, slice_get, Some, IfOk, OnOk};
ghost use Rattle.std.specs.List.{AllZip};
ghost use Rattle.std.specs.Option.{option_copied, option_map};
ghost use Rattle.rv_access.specs.Limits.{most_lines};
ghost use Rattle.rv_access.specs.Lines.{fits};
ghost use Rattle.rv_access.specs.Words.{Words};
ghost use Rattle.rv_shape.specs.Catalogue.{all_objects, dotted, numbered, objects_of, UnitObject};
ghost use Rattle.rv_shape.specs.Catalogue.{suspension_operations, suspension_operation_name};
ghost use Rattle.rv_shape.specs.Names.{operation_names};
ghost use Rattle.rv_table.specs.Edits.{Brings, CanEdit, edited};
ghost use Rattle.rv_table.specs.Tables.{IsCaller, IsSite, AreSites, callers};

use crate::edit::Edit;
use crate::edit_row::edit_row;
use crate::row::{Row, caller_row, site_row};
use rv_access::AccessList;
use rv_shape::catalogue::Catalogue;
use rv_shape::object::{Object, Operation};
use rv_shape::shape::UnitShape;
use std::alloc::{AllocError, Global};
use std::marker::Model;

/// The home of the lines, as access lists name it.
const INTERRUPTS: &str = "Interrupts";

/// The rows of the operations of an object, in order.
#[derive(Drop)]
pub(crate) struct ObjectRows {
    rows: Vec<Row>,
}

impl Model for ObjectRows {
    ghost use Rattle.std.specs.Prelude.{ℕ, List};

    ghost Value = { List (List ℕ) };

    ghost view = { λ o. o.rows.items };
}

impl ObjectRows {
    // A copy. Err where memory was refused.
    fn copy(&self, alloc: Global) -> Result<ObjectRows, AllocError>
        ensures { IfOk result (λ copy. copy ≡ self.now) }
    {
        let rows = copy_rows(alloc, &self.rows)?;
        Ok(ObjectRows { rows })
    }

    // Makes the rows of a list of so many lines those of the list after an edit.
    fn edit(&mut self, edit: Edit<'_>, lines: usize, unit: &str, object: &Object)
        requires { CanEdit edit lines }
        ensures { (list : List Words) → lines ≡ length list → AreSites list (record { unit = unit.now; object = object.now }) self.old
            → AreSites (edited edit.entry list) (record { unit = unit.now; object = object.now }) self.new }
    {
        edit_operations(&mut self.rows, edit, lines, unit, object);
    }

    /// The row of an operation, by its number from 1, or `None` where there is none.
    pub fn row(&self, operation: usize) -> Option<&Row>
        ensures { option_copied result ≡ numbered self.now operation }
    {
        if operation < 1 {
            return None;
        }
        self.rows.get(operation - 1)
    }
}

/// The rows of the home of the lines and of each unit. Err where memory was refused.
pub(crate) fn caller_rows(
    alloc: Global,
    list: &AccessList,
    shapes: &[UnitShape],
) -> Result<Vec<Row>, AllocError>
    requires { length list.now ≤ most_lines }
    ensures { IfOk result (λ rows. AllZip (IsCaller list.now) (callers shapes.now) rows.items) }
{
    let mut rows = Vec::new(alloc);
    rows.push(caller_row(list, INTERRUPTS))?;
    for shape in shapes {
        rows.push(caller_row(list, shape.name()))?;
    }
    Ok(rows)
}

/// A copy of rows. Err where memory was refused.
pub(crate) fn copy_rows(alloc: Global, rows: &[Row]) -> Result<Vec<Row>, AllocError>
    ensures { IfOk result (λ copy. copy.items ≡ rows.now) }
{
    let mut copy = Vec::new(alloc);
    for row in rows {
        copy.push(*row)?;
    }
    Ok(copy)
}

/// Rows of callers, with that of one more unit behind them. Err where memory was refused.
pub(crate) fn callers_with(
    alloc: Global,
    rows: &[Row],
    list: &AccessList,
    shape: &UnitShape,
) -> Result<Vec<Row>, AllocError>
    requires { length list.now ≤ most_lines }
    ensures { (names : List (List ℕ)) → AllZip (IsCaller list.now) names rows.now
        → IfOk result (λ more. AllZip (IsCaller list.now) (names ++ shape.now.name ∷ []) more.items) }
{
    let mut rows = copy_rows(alloc, rows)?;
    rows.push(caller_row(list, shape.name()))?;
    Ok(rows)
}

// The rows of the operations that a protected object declares. Err where memory was refused.
fn protected_rows(
    alloc: Global,
    list: &AccessList,
    unit: &str,
    object: &str,
    operations: &[Operation],
) -> Result<Vec<Row>, AllocError>
    requires { length list.now ≤ most_lines }
    ensures { IfOk result (λ rows. AllZip (IsSite list.now (dotted unit.now object.now)) (map (λ operation. operation.name) operations.now) rows.items) }
{
    let mut rows = Vec::new(alloc);
    for operation in operations {
        rows.push(site_row(list, unit, object, operation.name()))?;
    }
    Ok(rows)
}

// The rows of the operations of a suspension object (D.10). Err where memory was refused.
fn suspension_rows(
    alloc: Global,
    list: &AccessList,
    unit: &str,
    object: &str,
) -> Result<Vec<Row>, AllocError>
    requires { length list.now ≤ most_lines }
    ensures { IfOk result (λ rows. AllZip (IsSite list.now (dotted unit.now object.now)) (map suspension_operation_name suspension_operations) rows.items) }
{
    let mut rows = Vec::new(alloc);
    rows.push(site_row(list, unit, object, "Set_True"))?;
    rows.push(site_row(list, unit, object, "Set_False"))?;
    rows.push(site_row(list, unit, object, "Current_State"))?;
    rows.push(site_row(list, unit, object, "Suspend_Until_True"))?;
    Ok(rows)
}

// The rows of the operations of an object. Err where memory was refused.
fn rows_of_object(
    alloc: Global,
    list: &AccessList,
    unit: &str,
    object: &Object,
) -> Result<ObjectRows, AllocError>
    requires { length list.now ≤ most_lines }
    ensures { IfOk result (λ rows. AreSites list.now (record { unit = unit.now; object = object.now }) rows) }
{
    let rows = match object {
        Object::Protected(protected) => {
            protected_rows(alloc, list, unit, protected.name(), protected.operations())?
        }
        Object::Suspension(suspension) => suspension_rows(alloc, list, unit, suspension.name())?,
    };
    Ok(ObjectRows { rows })
}

// Adds the rows of the objects of a unit. Err where memory was refused.
fn add_unit(
    alloc: Global,
    list: &AccessList,
    shape: &UnitShape,
    rows: &mut Vec<ObjectRows>,
) -> Result<(), AllocError>
    requires { length list.now ≤ most_lines }
    ensures { (before : List UnitObject) → AllZip (AreSites list.now) before rows.old.items
        → OnOk result (AllZip (AreSites list.now) (before ++ objects_of shape.now) rows.new.items) }
{
    for object in shape.objects() {
        rows.push(rows_of_object(alloc, list, shape.name(), object)?)?;
    }
    Ok(())
}

/// The rows of each object, in the order of load. Err where memory was refused.
pub(crate) fn object_rows(
    alloc: Global,
    list: &AccessList,
    shapes: &[UnitShape],
) -> Result<Vec<ObjectRows>, AllocError>
    requires { length list.now ≤ most_lines }
    ensures { IfOk result (λ rows. AllZip (AreSites list.now) (all_objects shapes.now) rows.items) }
{
    let mut rows = Vec::new(alloc);
    for shape in shapes {
        add_unit(alloc, list, shape, &mut rows)?;
    }
    Ok(rows)
}

// A copy of the rows of objects. Err where memory was refused.
fn copy_objects(alloc: Global, rows: &[ObjectRows]) -> Result<Vec<ObjectRows>, AllocError>
    ensures { IfOk result (λ copy. copy.items ≡ rows.now) }
{
    let mut copy = Vec::new(alloc);
    for each in rows {
        copy.push(each.copy(alloc)?)?;
    }
    Ok(copy)
}

/// Rows of objects, with those of one more unit behind them. Err where memory was refused.
pub(crate) fn objects_with(
    alloc: Global,
    rows: &[ObjectRows],
    list: &AccessList,
    shape: &UnitShape,
) -> Result<Vec<ObjectRows>, AllocError>
    requires { length list.now ≤ most_lines }
    ensures { (before : List UnitObject) → AllZip (AreSites list.now) before rows.now
        → IfOk result (λ more. AllZip (AreSites list.now) (before ++ objects_of shape.now) more.items) }
{
    let mut rows = copy_objects(alloc, rows)?;
    add_unit(alloc, list, shape, &mut rows)?;
    Ok(rows)
}

// The name of a unit, by its place among the shapes.
fn unit_name(shapes: &[UnitShape], place: usize) -> Option<&str>
    ensures { option_copied result ≡ option_map (λ shape. shape.name) (slice_get shapes.now place) }
{
    match shapes.get(place) {
        Some(shape) => Some(shape.name()),
        None => None,
    }
}

// The name of the caller of a number, 0 being the home of the lines; `None` where there is none.
#[tactic(auto, using(crate::proofs::Callers::caller_at))]
fn caller_name(shapes: &[UnitShape], caller: usize) -> Option<&str>
    ensures { option_copied result ≡ slice_get (callers shapes.now) caller }
{
    if caller == 0 {
        return Some(INTERRUPTS);
    }
    unit_name(shapes, caller - 1)
}

// Makes the row of a caller of a list of so many lines that of the list after an edit, where there is the caller.
fn edit_caller(row: &mut Row, edit: Edit<'_>, lines: usize, caller: Option<&str>)
    requires { CanEdit edit lines }
    ensures { (list : List Words) (name : List ℕ) → lines ≡ length list → option_copied caller.entry ≡ Some name
        → IsCaller list name row.old → IsCaller (edited edit.entry list) name row.new }
{
    if let Some(caller) = caller {
        edit_row(row, edit, lines, edit.is_of_caller(caller));
    }
}

/// Makes the rows of callers of a list of so many lines those of the list after an edit.
pub(crate) fn edit_callers(rows: &mut [Row], edit: Edit<'_>, lines: usize, shapes: &[UnitShape])
    requires { CanEdit edit lines }
    ensures { (list : List Words) → lines ≡ length list → AllZip (IsCaller list) (callers shapes.now) rows.old
        → AllZip (IsCaller (edited edit.entry list)) (callers shapes.now) rows.new }
{
    for i in 0..rows.len() {
        edit_caller(&mut rows[i], edit, lines, caller_name(shapes, i));
    }
}

// The name of an operation of a protected object, by its place; `None` where there is none.
fn protected_name(operations: &[Operation], place: usize) -> Option<&str>
    ensures { option_copied result ≡ option_map (λ operation. operation.name) (slice_get operations.now place) }
{
    match operations.get(place) {
        Some(operation) => Some(operation.name()),
        None => None,
    }
}

// The name of an operation of a suspension object, by its place; `None` where there is none (D.10).
fn suspension_name(place: usize) -> Option<&'static str>
    ensures { option_copied result ≡ slice_get (map suspension_operation_name suspension_operations) place }
{
    match place {
        0 => Some("Set_True"),
        1 => Some("Set_False"),
        2 => Some("Current_State"),
        3 => Some("Suspend_Until_True"),
        _ => None,
    }
}

// The name of an operation of an object, by its place; `None` where there is none.
#[tactic(auto, using(crate::proofs::Callers::mapped))]
fn operation_name(object: &Object, place: usize) -> Option<&str>
    ensures { option_copied result ≡ slice_get (operation_names object.now) place }
{
    match object {
        Object::Protected(protected) => protected_name(protected.operations(), place),
        Object::Suspension(_) => suspension_name(place),
    }
}

// Makes the row of an operation of a list of so many lines that of the list after an edit, where there is the operation;
// whether the line that the edit brings is of the object, is given.
fn edit_operation(
    row: &mut Row,
    edit: Edit<'_>,
    lines: usize,
    is_of_object: bool,
    operation: Option<&str>,
)
    requires { CanEdit edit lines }
    ensures { (list : List Words) (object name : List ℕ) → lines ≡ length list → option_copied operation.entry ≡ Some name
        → Brings edit.entry (λ line. fits line.object object) is_of_object
        → IsSite list object name row.old → IsSite (edited edit.entry list) object name row.new }
{
    if let Some(operation) = operation {
        let is_marked = is_of_object && edit.is_of_operation(operation);
        edit_row(row, edit, lines, is_marked);
    }
}

// Makes the rows of the operations of an object, of a list of so many lines, those of the list after an edit.
fn edit_operations(rows: &mut [Row], edit: Edit<'_>, lines: usize, unit: &str, object: &Object)
    requires { CanEdit edit lines }
    ensures { (list : List Words) → lines ≡ length list → AreSites list (record { unit = unit.now; object = object.now }) rows.old
        → AreSites (edited edit.entry list) (record { unit = unit.now; object = object.now }) rows.new }
{
    let is_of_object = edit.is_of_object(unit, object.name());
    for i in 0..rows.len() {
        edit_operation(
            &mut rows[i],
            edit,
            lines,
            is_of_object,
            operation_name(object, i),
        );
    }
}

// Makes the rows of an object of a list of so many lines those of the list after an edit, where there is the object.
fn edit_object(
    rows: &mut ObjectRows,
    edit: Edit<'_>,
    lines: usize,
    place: Option<(&UnitShape, &Object)>,
)
    requires { CanEdit edit lines }
    ensures { (list : List Words) (at : UnitObject) → lines ≡ length list
        → option_map (λ p. record { unit = p.0.now.name; object = p.1.now }) place.entry ≡ Some at
        → AreSites list at rows.old → AreSites (edited edit.entry list) at rows.new }
{
    if let Some((shape, object)) = place {
        rows.edit(edit, lines, shape.name(), object);
    }
}

/// Makes the rows of objects of a list of so many lines those of the list after an edit.
pub(crate) fn edit_objects(
    rows: &mut [ObjectRows],
    edit: Edit<'_>,
    lines: usize,
    catalogue: &Catalogue,
)
    requires { CanEdit edit lines }
    ensures { (list : List Words) → lines ≡ length list → AllZip (AreSites list) (all_objects catalogue.now) rows.old
        → AllZip (AreSites (edited edit.entry list)) (all_objects catalogue.now) rows.new }
{
    for i in 0..rows.len() {
        edit_object(&mut rows[i], edit, lines, catalogue.object(i + 1));
    }
}
