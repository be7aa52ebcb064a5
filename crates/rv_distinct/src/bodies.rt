//! The names of bodies.

ghost use Rattle.std.specs.Prelude.{◌≡◌, ◌++◌, ◌∷◌, [], map, OnOk, IfOk};
ghost use Rattle.std.specs.List.{flat_map};
ghost use Rattle.std.specs.Option.{is_none};
ghost use Rattle.rv_tree.specs.BodyView.{operation_body_view};
ghost use Rattle.rv_tree.specs.UnitView.{body_item_view, unit_view};
ghost use Rattle.rv_tree.specs.Operations.{operation_body_name};
ghost use Rattle.rv_distinct.specs.BodyNames.{item_bodies, operation_bodies as bodies_of_operations, body_names as all_body_names, has_one_body_each};

use crate::region::{Region, first_again};
use rv_tree::body::OperationBody;
use rv_tree::unit::{BodyItem, UnitTree};
use std::alloc::{AllocError, Global};

fn item_body<'a>(item: &'a BodyItem, region: &mut Region<'a>) -> Result<(), AllocError>
    ensures { OnOk result (region.new ≡ region.old ++ item_bodies (body_item_view item.now)) }
{
    match item {
        BodyItem::Declaration(_) => Ok(()),
        BodyItem::Protected(body) => region.declare(&body.name),
        BodyItem::Task(body) => region.declare(&body.name),
    }
}

// The bodies of the package's protected units and tasks.
fn package_bodies<'a>(alloc: Global, list: &'a Vec<BodyItem>) -> Result<Region<'a>, AllocError>
    ensures { IfOk result (λ region. region ≡ flat_map item_bodies (map body_item_view list.now.items)) }
{
    let mut region = Region::new(alloc);
    for item in list {
        item_body(item, &mut region)?;
    }
    Ok(region)
}

// The bodies of operations in one protected body.
fn operation_bodies<'a>(
    alloc: Global,
    list: &'a Vec<OperationBody>,
) -> Result<Region<'a>, AllocError>
    ensures { IfOk result (λ region. region ≡ map operation_body_name (map operation_body_view list.now.items)) }
{
    let mut region = Region::new(alloc);
    for body in list {
        region.declare(body.name())?;
    }
    Ok(region)
}

fn in_item<'a>(
    alloc: Global,
    item: &'a BodyItem,
    regions: &mut Vec<Region<'a>>,
) -> Result<(), AllocError>
    ensures { OnOk result (regions.new.items ≡ regions.old.items ++ bodies_of_operations (body_item_view item.now)) }
{
    if let BodyItem::Protected(body) = item {
        let region = operation_bodies(alloc, &body.operations)?;
        regions.push(region)?;
    }
    Ok(())
}

fn in_items<'a>(
    alloc: Global,
    list: &'a Vec<BodyItem>,
    regions: &mut Vec<Region<'a>>,
) -> Result<(), AllocError>
    ensures { OnOk result (regions.new.items ≡ regions.old.items ++ flat_map bodies_of_operations (map body_item_view list.now.items)) }
{
    for item in list {
        in_item(alloc, item, regions)?;
    }
    Ok(())
}

// The names of bodies, each beside those that it has to differ from.
fn body_names<'a>(alloc: Global, tree: &'a UnitTree) -> Result<Vec<Region<'a>>, AllocError>
    ensures { IfOk result (λ names. names.items ≡ all_body_names (unit_view tree.now)) }
{
    let mut names = Vec::new(alloc);
    let region = package_bodies(alloc, &tree.body.items)?;
    names.push(region)?;
    in_items(alloc, &tree.body.items, &mut names)?;
    Ok(names)
}

/// The least place of the name of a second body, or none exactly where nothing has two. Err where memory was refused.
pub fn body_twice(alloc: Global, tree: &UnitTree) -> Result<Option<usize>, AllocError>
    ensures { IfOk result (λ at. is_none at ≡ has_one_body_each (unit_view tree.now)) }
{
    first_again(alloc, &body_names(alloc, tree)?)
}
