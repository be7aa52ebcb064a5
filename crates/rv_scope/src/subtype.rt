//! What is known of subtypes and constants of a package (3.2.2, 3.3.1, 3.3.2).

ghost use Rattle.std.specs.Prelude.{◌≡◌, ◌∷◌, [], OnOk};
ghost use Rattle.rv_tree.specs.NameView.{identifier_view, identifiers_view, name_view};
ghost use Rattle.rv_tree.specs.DeclarationView.{maybe};
ghost use Rattle.rv_tree.specs.ExpressionView.{expression_view, range_view};
ghost use Rattle.rv_static.specs.Told.{told_unless};
ghost use Rattle.rv_scope.specs.Scope.{declaring, declaring_all, hiding, hiding_all};
ghost use Rattle.rv_scope.specs.Statics.{means};
ghost use Rattle.rv_scope.specs.Subtypes.{subtype_of, subtype_known, constant_range, constant_known, knowing_if};

use crate::declare::{Form, declare_all};
use crate::declared::Declared;
use crate::known::{Known, Table};
use crate::library_meaning::whole_range;
use crate::members::{hide, hide_all};
use crate::point::Point;
use crate::scope::Scope;
use rv_shape::kind::{Range, ValueType};
use rv_static::{Faults, Meanings, narrowed, subtype, value_in};
use rv_tree::expression::{Expression, RangeConstraint};
use rv_tree::name::{Identifier, Name};
use std::alloc::AllocError;

/// The range of a mark with a range constraint, if one is written; or `None`, where a fault was told.
pub fn constrained_subtype<N: Meanings>(
    mark: &Name,
    range: &Option<RangeConstraint>,
    names: &N,
    faults: &mut Faults,
) -> Option<Range>
    ensures value { result ≡ subtype_of (N.means names.now) (name_view mark.now) (maybe range_view range.now) }
    ensures told { faults.new ≡ told_unless result faults.old }
{
    let whole = subtype(mark, names, faults)?;
    narrowed(whole, range, names, faults)
}

// What is known of a subtype; or `None`, where a fault was told.
fn known_subtype<N: Meanings>(
    mark: &Name,
    range: &Option<RangeConstraint>,
    names: &N,
    faults: &mut Faults,
) -> Option<Known>
    ensures value { result ≡ subtype_known (N.means names.now) (name_view mark.now) (maybe range_view range.now) }
    ensures told { faults.new ≡ told_unless result faults.old }
{
    let part = constrained_subtype(mark, range, names, faults)?;
    Some(Known::Subtype(part))
}

// The subtype of a constant, and of a named number.
fn range_of_constant<N: Meanings>(
    mark: &Option<Name>,
    names: &N,
    faults: &mut Faults,
) -> Option<Range>
    ensures value { result ≡ constant_range (N.means names.now) (maybe name_view mark.now) }
    ensures told { faults.new ≡ told_unless result faults.old }
{
    match mark {
        None => Some(whole_range(ValueType::Integer)),
        Some(mark) => subtype(mark, names, faults),
    }
}

// What is known of a constant of the package, or of a named number; or `None`, where a fault was told.
fn known_constant<N: Meanings>(
    mark: &Option<Name>,
    initial: &Expression,
    names: &N,
    faults: &mut Faults,
) -> Option<Known>
    ensures value { result ≡ constant_known (N.means names.now) (maybe name_view mark.now) (expression_view initial.now) }
    ensures told { faults.new ≡ told_unless result faults.old }
{
    let range = range_of_constant(mark, names, faults)?;
    let value = value_in(range, initial, names, faults)?;
    Some(Known::Constant(range, value))
}

/// A subtype of the package is declared, and what is known of it noted; where it doesn't fit, a fault is told.
pub fn declare_subtype(
    declared: &Identifier,
    mark: &Name,
    range: &Option<RangeConstraint>,
    scope: &mut Scope,
    known: &mut Table,
    faults: &mut Faults,
) -> Result<(), AllocError>
    ensures scope { OnOk result (scope.new
        ≡ declaring Declared.Subtype (identifier_view declared.now) (hiding (identifier_view declared.now) scope.old)) }
    ensures known { OnOk result (known.new
        ≡ knowing_if (subtype_known (means (hiding (identifier_view declared.now) scope.old) known.old) (name_view mark.now)
        (maybe range_view range.now)) (identifier_view declared.now ∷ []) known.old) }
    ensures told { OnOk result (faults.new
        ≡ told_unless (subtype_known (means (hiding (identifier_view declared.now) scope.old) known.old) (name_view mark.now)
        (maybe range_view range.now)) faults.old) }
{
    hide(declared, scope)?;
    if let Some(one) = known_subtype(mark, range, &Point { scope, known }, faults) {
        known.note(declared.at, one)?;
    }
    scope.declare(declared, Some(Declared::Subtype(declared.at)))
}

/// Constants of the package, or named numbers, likewise.
pub fn declare_constants(
    names: &Vec<Identifier>,
    mark: &Option<Name>,
    initial: &Expression,
    scope: &mut Scope,
    known: &mut Table,
    faults: &mut Faults,
) -> Result<(), AllocError>
    ensures scope { OnOk result (scope.new
        ≡ declaring_all Form.Constant (identifiers_view names.now.items) (hiding_all (identifiers_view names.now.items) scope.old)) }
    ensures known { OnOk result (known.new
        ≡ knowing_if (constant_known (means (hiding_all (identifiers_view names.now.items) scope.old) known.old)
        (maybe name_view mark.now) (expression_view initial.now)) (identifiers_view names.now.items) known.old) }
    ensures told { OnOk result (faults.new
        ≡ told_unless (constant_known (means (hiding_all (identifiers_view names.now.items) scope.old) known.old)
        (maybe name_view mark.now) (expression_view initial.now)) faults.old) }
{
    hide_all(names, scope)?;
    if let Some(one) = known_constant(mark, initial, &Point { scope, known }, faults) {
        known.note_all(names, one)?;
    }
    declare_all(names, Form::Constant, scope)
}
