//! Calls in the bodies of a unit. What objects share is looked at once, as far as their entries are alike.

ghost use Rattle.std.specs.Prelude.{◌≡◌, ◌<◌, ◌+◌, ℕ, length, true, MatchOption, Some, slice_get};
ghost use Rattle.rv_code.specs.BodyView.{unit_view};
ghost use Rattle.rv_shape.specs.Catalogue.{place, target};
ghost use Rattle.rv_fits.specs.Alike.{AreAlike, IsShared, bodies_fit_at, operation_count};
ghost use Rattle.rv_fits.specs.Calls.{calls_from, objects_call};
ghost use Rattle.rv_fits.specs.Fits.{callee_fits, calls_entry};

use crate::body::{bodies_fit, tasks_fit};
use crate::callee::calls_entry;
use crate::passing::Test;
use crate::units::Units;
use rv_code::UnitBodies;

// How many operations a protected object has, by its number.
fn operation_count(units: &Units<'_>, object: usize) -> usize
    ensures { result ≡ operation_count (place units.now object) }
{
    match units.object(object) {
        Some((_, object)) => object.operations().len(),
        None => 0,
    }
}

fn is_same(one: bool, other: bool) -> bool
    ensures { result ≡ true → one ≡ other }
{
    if one { other } else { !other }
}

// Whether the operations of two objects up to a number are entries alike.
fn alike_to(units: &Units<'_>, one: usize, other: usize, most: usize) -> bool
    ensures { result ≡ true → (n : ℕ) → n < most → calls_entry (target units.now one (n + 1)) ≡ calls_entry (target units.now other (n + 1)) }
{
    for n in 0..most {
        let first = calls_entry(units, one, n + 1);
        let second = calls_entry(units, other, n + 1);
        if !is_same(first, second) {
            return false;
        }
    }
    true
}

// Whether the entries of two objects have the same numbers.
#[tactic(auto, using(crate::proofs::Alike::alike_by_count))]
fn are_alike(units: &Units<'_>, one: usize, other: usize) -> bool
    ensures { result ≡ true → AreAlike units.now one other }
{
    let count = operation_count(units, one);
    if count != operation_count(units, other) {
        return false;
    }
    alike_to(units, one, other, count)
}

// Whether the object of an index has the list of bodies.
fn has_list(objects: &[usize], index: usize, list: usize) -> bool
    ensures { result ≡ true → slice_get objects.now index ≡ Some list }
{
    match objects.get(index) {
        Some(had) => *had == list,
        None => false,
    }
}

// An earlier object of the unit that has the same bodies, with its entries alike.
fn earlier(
    objects: &[usize],
    index: usize,
    list: usize,
    units: &Units<'_>,
    first: usize,
) -> Option<usize>
    requires { first + index < 18446744073709551616 }
    ensures { MatchOption result (Unit {0}) (IsShared units.now objects.now index list first) }
{
    for at in 0..index {
        if has_list(objects, at, list) && are_alike(units, first + at, first + index) {
            return Some(at);
        }
    }
    None
}

// Whether the calls of the bodies of the object of an index fit, where those of the objects before it do.
#[tactic(auto, using(crate::proofs::Alike::shared_fits))]
fn object_fits(bodies: &UnitBodies, index: usize, units: &Units<'_>, first: usize) -> bool
    requires small { first + index < 18446744073709551616 }
    requires before { (k : ℕ) → k < index → bodies_fit_at units.now first bodies.now.lists.items bodies.now.objects.items k ≡ true }
    ensures { result ≡ bodies_fit_at units.now first bodies.now.lists.items bodies.now.objects.items index }
{
    let Some(list) = bodies.objects.get(index) else {
        return true;
    };
    match earlier(&bodies.objects, index, *list, units, first) {
        Some(_) => true,
        None => {
            let test = Test {
                units,
                object: first + index,
            };
            bodies_fit(bodies.list(*list), &test)
        }
    }
}

// Whether the calls of the bodies of objects fit, the first of which has this number.
#[tactic(auto, using(crate::proofs::Alike::all_fit_at, crate::proofs::Alike::one_fails_at))]
fn objects_fit(bodies: &UnitBodies, units: &Units<'_>, first: usize) -> bool
    requires { first + length bodies.now.objects.items < 18446744073709551616 }
    ensures { result ≡ objects_call (callee_fits units.now) first (unit_view bodies.now).objects }
{
    for index in 0..bodies.objects.len() {
        if !object_fits(bodies, index, units, first) {
            return false;
        }
    }
    true
}

/// Whether the calls of a unit's bodies fit these units: each names there what it is called for. The unit's first object has
/// this number.
pub(crate) fn calls_fit(bodies: &UnitBodies, units: &Units<'_>, first: usize) -> bool
    requires { first + length bodies.now.objects.items < 18446744073709551616 }
    ensures { result ≡ calls_from (callee_fits units.now) first (unit_view bodies.now) }
{
    let test = Test { units, object: 0 };
    objects_fit(bodies, units, first) && tasks_fit(&bodies.tasks, &test)
}
