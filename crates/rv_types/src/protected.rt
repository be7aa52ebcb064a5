//! Bodies of protected units.

ghost use Rattle.std.specs.Prelude.{◌≡◌, ◌<◌, List, IfOk, OnOk, Some, length, map};
ghost use Rattle.rv_tree.specs.DeclarationView.{protected_unit_view};
ghost use Rattle.rv_tree.specs.BodyView.{operation_body_view, protected_body_view};
ghost use Rattle.rv_scope.specs.UnitUses.{in_protected_unit};
ghost use Rattle.rv_code.specs.Bodies.{Body as BodyCode};
ghost use Rattle.rv_code.specs.BodyView.{body_view, list_at, unit_view};
ghost use Rattle.rv_types.specs.BodiesOf.{bodies_of_unit, object_compiled, perhaps_compiled, objects_compiled, unit_bodies as unit_bodies_compiled, protected_body_compiled};

use crate::body::operation_bodies;
use crate::refused::{Refused, mismatch};
use crate::setting::Setting;
use rv_code::{Body, UnitBodies};
use rv_outline::outline::ObjectType;
use rv_scope::Scope;
use rv_tree::body::ProtectedBody;
use rv_tree::declaration::ProtectedUnit;
use std::alloc::Global;

// The bodies of the operations of the protected unit of a number.
fn bodies_of<'a>(
    alloc: Global,
    setting: &Setting<'a>,
    number: usize,
    body: &ProtectedBody,
    scope: Scope<'a>,
) -> Result<(Vec<Body>, Scope<'a>), Refused>
    ensures code { IfOk result (λ r. bodies_of_unit setting.now scope.entry number (map operation_body_view body.now.operations.items) ≡ Some (map body_view r.0.items)) }
    ensures scope { IfOk result (λ r. r.1 ≡ scope.entry) }
{
    let at = body.name.at;
    let Some(unit) = setting.outline.units().get(number) else {
        return Err(mismatch(at));
    };
    operation_bodies(
        alloc,
        setting,
        unit.operations(),
        &body.operations,
        at,
        scope,
    )
}

// Gives the object of an index a list of bodies.
fn give(compiled: &mut UnitBodies, index: usize, list: usize, at: usize) -> Result<(), Refused>
    requires { list < length compiled.old.lists.items }
    ensures code { OnOk result ((same : List BodyCode) → list_at compiled.old.lists.items list ≡ same → object_compiled same index (unit_view compiled.old) ≡ Some (unit_view compiled.new)) }
    ensures lists { OnOk result (compiled.new.lists ≡ compiled.old.lists) }
{
    if index >= compiled.objects.len() {
        return Err(mismatch(at));
    }
    compiled.give(index, list);
    Ok(())
}

// The same of an object that may be another's.
fn give_perhaps(
    compiled: &mut UnitBodies,
    number: usize,
    index: usize,
    object: ObjectType,
    list: usize,
    at: usize,
) -> Result<(), Refused>
    requires { list < length compiled.old.lists.items }
    ensures code { OnOk result ((same : List BodyCode) → list_at compiled.old.lists.items list ≡ same → perhaps_compiled same number index object (unit_view compiled.old) ≡ Some (unit_view compiled.new)) }
    ensures lists { OnOk result (compiled.new.lists ≡ compiled.old.lists) }
{
    match object {
        ObjectType::Suspension => Ok(()),
        ObjectType::Protected(unit) => {
            if unit == number {
                give(compiled, index, list, at)
            } else {
                Ok(())
            }
        }
    }
}

// Gives each object of a protected unit a list of bodies.
fn give_all(
    compiled: &mut UnitBodies,
    number: usize,
    objects: &[ObjectType],
    list: usize,
    at: usize,
) -> Result<(), Refused>
    requires { list < length compiled.old.lists.items }
    ensures { OnOk result ((same : List BodyCode) → list_at compiled.old.lists.items list ≡ same → objects_compiled same number 0 objects.now (unit_view compiled.old) ≡ Some (unit_view compiled.new)) }
{
    let mut index: usize = 0;
    for object in objects {
        if index >= 4294967296 {
            return Err(mismatch(at));
        }
        give_perhaps(compiled, number, index, *object, list, at)?;
        index += 1;
    }
    Ok(())
}

// Each object of a protected unit shares these bodies.
fn share(
    compiled: &mut UnitBodies,
    number: usize,
    objects: &[ObjectType],
    same: Vec<Body>,
    at: usize,
) -> Result<(), Refused>
    ensures { OnOk result (objects_compiled (map body_view same.items) number 0 objects.now (unit_view compiled.old) ≡ Some (unit_view compiled.new)) }
{
    let list = compiled.add_list(same)?;
    give_all(compiled, number, objects, list, at)?;
    Ok(())
}

// The bodies of a protected unit of a number, which its objects share.
#[tactic(auto, using(crate::proofs::Sharing::shared))]
fn unit_bodies<'a>(
    alloc: Global,
    setting: &Setting<'a>,
    number: usize,
    body: &ProtectedBody,
    compiled: &mut UnitBodies,
    scope: Scope<'a>,
) -> Result<Scope<'a>, Refused>
    ensures code { IfOk result (λ _. unit_bodies_compiled setting.now scope.entry number (map operation_body_view body.now.operations.items) (unit_view compiled.old) ≡ Some (unit_view compiled.new)) }
    ensures scope { IfOk result (λ s. s ≡ scope.entry) }
{
    let (same, left) = bodies_of(alloc, setting, number, body, scope)?;
    share(
        compiled,
        number,
        setting.outline.objects(),
        same,
        body.name.at,
    )?;
    Ok(left)
}

// The body of a protected unit of a number.
fn in_unit<'a>(
    alloc: Global,
    setting: &Setting<'a>,
    unit: &ProtectedUnit,
    number: usize,
    body: &ProtectedBody,
    compiled: &mut UnitBodies,
    around: Scope<'a>,
) -> Result<Scope<'a>, Refused>
    ensures code { IfOk result (λ _. unit_bodies_compiled setting.now (in_protected_unit (protected_unit_view unit.now) around.entry) number (map operation_body_view body.now.operations.items) (unit_view compiled.old) ≡ Some (unit_view compiled.new)) }
    ensures scope { IfOk result (λ s. s ≡ around.entry) }
{
    let mut scope = around;
    let outer = scope.enter_unit(unit)?;
    let mut left = unit_bodies(alloc, setting, number, body, compiled, scope)?;
    left.leave_unit(outer);
    Ok(left)
}

/// A protected body.
pub(crate) fn protected_body<'a>(
    alloc: Global,
    setting: &Setting<'a>,
    units: &[&ProtectedUnit],
    body: &ProtectedBody,
    compiled: &mut UnitBodies,
    around: Scope<'a>,
) -> Result<Scope<'a>, Refused>
    ensures code { IfOk result (λ _. protected_body_compiled setting.now (map (λ u. protected_unit_view u.now) units.now) around.entry (protected_body_view body.now) (unit_view compiled.old) ≡ Some (unit_view compiled.new)) }
    ensures scope { IfOk result (λ s. s ≡ around.entry) }
{
    match around.unit_of_body(&body.name, units) {
        Some((number, unit)) => in_unit(alloc, setting, unit, number, body, compiled, around),
        None => Err(mismatch(body.name.at)),
    }
}
