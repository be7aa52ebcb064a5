//! The names that declarations of objects and of components use, and what they declare.

ghost use Rattle.std.specs.Prelude.{◌≡◌, OnOk};
ghost use Rattle.rv_tree.specs.NameView.{identifiers_view, name_view};
ghost use Rattle.rv_tree.specs.ExpressionView.{expression_view, range_view};
ghost use Rattle.rv_tree.specs.DeclarationView.{maybe};
ghost use Rattle.rv_scope.specs.Bound.{judged};
ghost use Rattle.rv_scope.specs.Scope.{OnlyDeclares, declaring_all, hiding_all};
ghost use Rattle.rv_scope.specs.ExpressionUses.{◌▷◌, value_uses, maybe_uses, range_uses};

use crate::expression::{maybe_range, maybe_value, name};
use crate::fault::Faults;
use rv_scope::declare::{Form, declare_all};
use rv_scope::members::hide_all;
use rv_scope::scope::Scope;
use rv_scope::wanted::Wanted;
use rv_tree::expression::{Expression, RangeConstraint};
use rv_tree::name::{Identifier, Name};
use std::alloc::AllocError;

/// The subtype, the range and the value of a declaration, in which its own names aren't visible yet (8.3); the names are
/// declared in that form then.
pub(crate) fn objects(
    names: &Vec<Identifier>,
    form: Form,
    mark: &Name,
    part: &Option<RangeConstraint>,
    initial: &Option<Expression>,
    scope: &mut Scope,
    faults: &mut Faults,
) -> Result<(), AllocError>
    ensures faults { OnOk result (faults.new
        ≡ (judged (hiding_all (identifiers_view names.now.items) scope.old) Wanted.Subtype (name_view mark.now)
        ▷ maybe_uses (range_uses judged (hiding_all (identifiers_view names.now.items) scope.old)) (maybe range_view part.now)
        ▷ maybe_uses (value_uses judged (hiding_all (identifiers_view names.now.items) scope.old)) (maybe expression_view initial.now)) faults.old) }
    ensures scope { OnOk result (scope.new
        ≡ declaring_all form (identifiers_view names.now.items) (hiding_all (identifiers_view names.now.items) scope.old)) }
    ensures only { OnOk result (OnlyDeclares scope.old scope.new) }
{
    hide_all(names, scope)?;
    name(mark, Wanted::Subtype, scope, faults);
    maybe_range(part, scope, faults);
    maybe_value(initial, scope, faults);
    declare_all(names, form, scope)
}
