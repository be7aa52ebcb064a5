//! The regions of whole unit texts.

ghost use Rattle.std.specs.Prelude.{◌≡◌, ◌++◌, ◌∷◌, [], map, OnOk, IfOk};
ghost use Rattle.std.specs.List.{flat_map};
ghost use Rattle.std.specs.Option.{is_none};
ghost use Rattle.rv_tree.specs.DeclarationView.{declaration_view};
ghost use Rattle.rv_tree.specs.BodyView.{operation_body_view, block_view};
ghost use Rattle.rv_tree.specs.UnitView.{body_item_view, unit_view};
ghost use Rattle.rv_distinct.specs.Regions.{package_region, declaration_regions, body_region as region_of_body, item_regions, regions as all_regions, block_names, names_are_distinct};

use crate::names::{block, declarations, items, parameters};
use crate::protected::protected_unit;
use crate::region::{Region, first_again};
use rv_tree::body::{Block, OperationBody};
use rv_tree::declaration::Declaration;
use rv_tree::unit::{BodyItem, UnitTree};
use std::alloc::{AllocError, Global};

// What the package declares.
fn package<'a>(alloc: Global, tree: &'a UnitTree) -> Result<Region<'a>, AllocError>
    ensures { IfOk result (λ region. region ≡ package_region (unit_view tree.now)) }
{
    let mut region = Region::new(alloc);
    declarations(&tree.specification.declarations, &mut region)?;
    items(&tree.body.items, &mut region)?;
    Ok(region)
}

fn in_declaration<'a>(
    alloc: Global,
    one: &'a Declaration,
    regions: &mut Vec<Region<'a>>,
) -> Result<(), AllocError>
    ensures { OnOk result (regions.new.items ≡ regions.old.items ++ declaration_regions (declaration_view one.now)) }
{
    match one {
        Declaration::Protected(unit) => protected_unit(alloc, unit, regions),
        _ => Ok(()),
    }
}

fn in_declarations<'a>(
    alloc: Global,
    list: &'a Vec<Declaration>,
    regions: &mut Vec<Region<'a>>,
) -> Result<(), AllocError>
    ensures { OnOk result (regions.new.items ≡ regions.old.items ++ flat_map declaration_regions (map declaration_view list.now.items)) }
{
    for one in list {
        in_declaration(alloc, one, regions)?;
    }
    Ok(())
}

// The region of a body: its parameters, and what its block declares.
fn body_region<'a>(alloc: Global, body: &'a OperationBody) -> Result<Region<'a>, AllocError>
    ensures { IfOk result (λ region. region ≡ region_of_body (operation_body_view body.now)) }
{
    let mut region = Region::new(alloc);
    parameters(body.parameters(), &mut region)?;
    block(body.block(), &mut region)?;
    Ok(region)
}

fn in_protected_body<'a>(
    alloc: Global,
    list: &'a Vec<OperationBody>,
    regions: &mut Vec<Region<'a>>,
) -> Result<(), AllocError>
    ensures { OnOk result (regions.new.items ≡ regions.old.items ++ map region_of_body (map operation_body_view list.now.items)) }
{
    for one in list {
        let region = body_region(alloc, one)?;
        regions.push(region)?;
    }
    Ok(())
}

fn in_block<'a>(
    alloc: Global,
    part: &'a Block,
    regions: &mut Vec<Region<'a>>,
) -> Result<(), AllocError>
    ensures { OnOk result (regions.new.items ≡ regions.old.items ++ block_names (block_view part.now) ∷ []) }
{
    let mut region = Region::new(alloc);
    block(part, &mut region)?;
    regions.push(region)?;
    Ok(())
}

fn in_item<'a>(
    alloc: Global,
    item: &'a BodyItem,
    regions: &mut Vec<Region<'a>>,
) -> Result<(), AllocError>
    ensures { OnOk result (regions.new.items ≡ regions.old.items ++ item_regions (body_item_view item.now)) }
{
    match item {
        BodyItem::Declaration(one) => in_declaration(alloc, one, regions),
        BodyItem::Protected(body) => in_protected_body(alloc, &body.operations, regions),
        BodyItem::Task(body) => in_block(alloc, &body.block, regions),
    }
}

fn in_items<'a>(
    alloc: Global,
    list: &'a Vec<BodyItem>,
    regions: &mut Vec<Region<'a>>,
) -> Result<(), AllocError>
    ensures { OnOk result (regions.new.items ≡ regions.old.items ++ flat_map item_regions (map body_item_view list.now.items)) }
{
    for item in list {
        in_item(alloc, item, regions)?;
    }
    Ok(())
}

// All regions that may declare more than one identifier.
fn regions<'a>(alloc: Global, tree: &'a UnitTree) -> Result<Vec<Region<'a>>, AllocError>
    ensures { IfOk result (λ regions. regions.items ≡ all_regions (unit_view tree.now)) }
{
    let mut regions = Vec::new(alloc);
    let region = package(alloc, tree)?;
    regions.push(region)?;
    in_declarations(alloc, &tree.specification.declarations, &mut regions)?;
    in_items(alloc, &tree.body.items, &mut regions)?;
    Ok(regions)
}

/// The least place of an identifier whose name an earlier one of its region has, or none exactly where no region of the
/// text declares a name twice. Err where memory was refused.
pub fn declared_twice(alloc: Global, tree: &UnitTree) -> Result<Option<usize>, AllocError>
    ensures { IfOk result (λ at. is_none at ≡ names_are_distinct (unit_view tree.now)) }
{
    first_again(alloc, &regions(alloc, tree)?)
}
