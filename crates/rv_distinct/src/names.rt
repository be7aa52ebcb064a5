//! What declarations, parameters and blocks declare.

ghost use Rattle.std.specs.Prelude.{◌≡◌, ◌++◌, map, OnOk};
ghost use Rattle.std.specs.List.{flat_map};
ghost use Rattle.rv_tree.specs.DeclarationView.{declaration_view, parameter_view};
ghost use Rattle.rv_tree.specs.BodyView.{block_view};
ghost use Rattle.rv_tree.specs.UnitView.{body_item_view};
ghost use Rattle.rv_tree.specs.DeclaredNames.{declaration_names};
ghost use Rattle.rv_distinct.specs.Regions.{declared_by_item, parameter_names, block_names};

use crate::region::Region;
use rv_tree::body::Block;
use rv_tree::declaration::{Declaration, Parameter};
use rv_tree::unit::BodyItem;
use std::alloc::AllocError;

/// What declarations of a package declare, behind what the region declares already. Err where memory was refused.
pub(crate) fn declarations<'a>(
    list: &'a Vec<Declaration>,
    region: &mut Region<'a>,
) -> Result<(), AllocError>
    ensures { OnOk result (region.new ≡ region.old ++ flat_map declaration_names (map declaration_view list.now.items)) }
{
    for one in list {
        region.declare_all(one.names())?;
    }
    Ok(())
}

fn item<'a>(one: &'a BodyItem, region: &mut Region<'a>) -> Result<(), AllocError>
    ensures { OnOk result (region.new ≡ region.old ++ declared_by_item (body_item_view one.now)) }
{
    match one {
        BodyItem::Declaration(one) => region.declare_all(one.names()),
        BodyItem::Protected(_) | BodyItem::Task(_) => Ok(()),
    }
}

/// The same of the items of its body.
pub(crate) fn items<'a>(list: &'a Vec<BodyItem>, region: &mut Region<'a>) -> Result<(), AllocError>
    ensures { OnOk result (region.new ≡ region.old ++ flat_map declared_by_item (map body_item_view list.now.items)) }
{
    for one in list {
        item(one, region)?;
    }
    Ok(())
}

/// The same of parameters.
pub(crate) fn parameters<'a>(
    list: &'a Vec<Parameter>,
    region: &mut Region<'a>,
) -> Result<(), AllocError>
    ensures { OnOk result (region.new ≡ region.old ++ parameter_names (map parameter_view list.now.items)) }
{
    for one in list {
        region.declare_all(one.names.as_slice())?;
    }
    Ok(())
}

/// The same of the declarations of a block.
pub(crate) fn block<'a>(block: &'a Block, region: &mut Region<'a>) -> Result<(), AllocError>
    ensures { OnOk result (region.new ≡ region.old ++ block_names (block_view block.now)) }
{
    for one in &block.locals {
        region.declare_all(one.names())?;
    }
    Ok(())
}
