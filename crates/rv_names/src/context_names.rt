//! The names that context clauses use (8.4, 10.1.2).

ghost use Rattle.std.specs.Prelude.{◌≡◌, OnOk, map};
ghost use Rattle.rv_tree.specs.NameView.{names_view};
ghost use Rattle.rv_tree.specs.UnitView.{context_item_view};
ghost use Rattle.rv_scope.specs.Bound.{judged};
ghost use Rattle.rv_scope.specs.UnitUses.{with_names_uses, with_names as scope_with_names, use_names_uses, use_names as scope_use_names, context_item_uses, with_context_item, context_uses, with_context};

use crate::expression::name;
use crate::fault::Faults;
use crate::pragma::stray_pragma;
use rv_scope::context::{use_name, with_name};
use rv_scope::scope::Scope;
use rv_scope::wanted::Wanted;
use rv_tree::name::Name;
use rv_tree::unit::ContextItem;
use std::alloc::AllocError;

fn with_names(list: &Vec<Name>, scope: &mut Scope, faults: &mut Faults) -> Result<(), AllocError>
    ensures faults { OnOk result (faults.new ≡ with_names_uses judged scope.old (names_view list.now.items) faults.old) }
    ensures scope { OnOk result (scope.new ≡ scope_with_names (names_view list.now.items) scope.old) }
{
    for one in list {
        name(one, Wanted::With, scope, faults);
        with_name(one, scope)?;
    }
    Ok(())
}

fn use_names(list: &Vec<Name>, scope: &mut Scope, faults: &mut Faults) -> Result<(), AllocError>
    ensures faults { OnOk result (faults.new ≡ use_names_uses judged scope.old (names_view list.now.items) faults.old) }
    ensures scope { OnOk result (scope.new ≡ scope_use_names (names_view list.now.items) scope.old) }
{
    for one in list {
        name(one, Wanted::Use, scope, faults);
        use_name(one, scope)?;
    }
    Ok(())
}

fn context_item(
    item: &ContextItem,
    scope: &mut Scope,
    faults: &mut Faults,
) -> Result<(), AllocError>
    ensures faults { OnOk result (faults.new ≡ context_item_uses judged scope.old (context_item_view item.now) faults.old) }
    ensures scope { OnOk result (scope.new ≡ with_context_item (context_item_view item.now) scope.old) }
{
    match item {
        ContextItem::Pragma(pragma) => {
            stray_pragma(pragma, faults);
            Ok(())
        }
        ContextItem::With(_, names) => with_names(names, scope, faults),
        ContextItem::Use { is_type, names, .. } => {
            if *is_type {
                return Ok(());
            }
            use_names(names, scope, faults)
        }
    }
}

/// The names of the items before the package, which are made visible on the way.
pub(crate) fn context_names(
    list: &Vec<ContextItem>,
    scope: &mut Scope,
    faults: &mut Faults,
) -> Result<(), AllocError>
    ensures faults { OnOk result (faults.new ≡ context_uses judged scope.old (map context_item_view list.now.items) faults.old) }
    ensures scope { OnOk result (scope.new ≡ with_context (map context_item_view list.now.items) scope.old) }
{
    for item in list {
        context_item(item, scope, faults)?;
    }
    Ok(())
}
