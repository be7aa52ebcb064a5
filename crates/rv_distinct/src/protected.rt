//! The regions of protected units.

ghost use Rattle.std.specs.Prelude.{◌≡◌, ◌++◌, ◌∷◌, [], map, OnOk, Option};
ghost use Rattle.std.specs.List.{flat_map};
ghost use Rattle.std.specs.Option.{unwrap_or};
ghost use Rattle.rv_tree.specs.DeclarationView.{maybe, parameter_view, operation_view, element_view, protected_unit_view};
ghost use Rattle.rv_tree.specs.DeclaredNames.{operation_names, element_names};
ghost use Rattle.rv_distinct.specs.Regions.{parameter_names, profile_regions, element_regions, member_names, unit_regions};

use crate::names::parameters;
use crate::region::Region;
use rv_tree::declaration::{OperationDeclaration, Parameter, ProtectedElement, ProtectedUnit};
use std::alloc::{AllocError, Global};

fn operations<'a>(
    list: &'a Vec<OperationDeclaration>,
    region: &mut Region<'a>,
) -> Result<(), AllocError>
    ensures { OnOk result (region.new ≡ region.old ++ flat_map operation_names (map operation_view list.now.items)) }
{
    for one in list {
        region.declare_all(one.names())?;
    }
    Ok(())
}

fn elements<'a>(list: &'a Vec<ProtectedElement>, region: &mut Region<'a>) -> Result<(), AllocError>
    ensures { OnOk result (region.new ≡ region.old ++ flat_map element_names (map element_view list.now.items)) }
{
    for one in list {
        region.declare_all(one.names())?;
    }
    Ok(())
}

// What a protected unit declares, behind `private` too.
fn members<'a>(unit: &'a ProtectedUnit, region: &mut Region<'a>) -> Result<(), AllocError>
    ensures { OnOk result (region.new ≡ region.old ++ member_names (protected_unit_view unit.now)) }
{
    operations(&unit.operations, region)?;
    match &unit.private {
        None => Ok(()),
        Some(list) => elements(list, region),
    }
}

// The region of an operation's parameters, behind the regions before it.
fn profile<'a>(
    alloc: Global,
    list: &'a Vec<Parameter>,
    regions: &mut Vec<Region<'a>>,
) -> Result<(), AllocError>
    ensures { OnOk result (regions.new.items ≡ regions.old.items ++ parameter_names (map parameter_view list.now.items) ∷ []) }
{
    let mut region = Region::new(alloc);
    parameters(list, &mut region)?;
    regions.push(region)?;
    Ok(())
}

fn operation_profile<'a>(
    alloc: Global,
    one: &'a OperationDeclaration,
    regions: &mut Vec<Region<'a>>,
) -> Result<(), AllocError>
    ensures { OnOk result (regions.new.items ≡ regions.old.items ++ profile_regions (operation_view one.now)) }
{
    match one.parameters() {
        None => Ok(()),
        Some(list) => profile(alloc, list, regions),
    }
}

fn operation_profiles<'a>(
    alloc: Global,
    list: &'a Vec<OperationDeclaration>,
    regions: &mut Vec<Region<'a>>,
) -> Result<(), AllocError>
    ensures { OnOk result (regions.new.items ≡ regions.old.items ++ flat_map profile_regions (map operation_view list.now.items)) }
{
    for one in list {
        operation_profile(alloc, one, regions)?;
    }
    Ok(())
}

fn element_profile<'a>(
    alloc: Global,
    one: &'a ProtectedElement,
    regions: &mut Vec<Region<'a>>,
) -> Result<(), AllocError>
    ensures { OnOk result (regions.new.items ≡ regions.old.items ++ element_regions (element_view one.now)) }
{
    match one {
        ProtectedElement::Operation(one) => operation_profile(alloc, one, regions),
        ProtectedElement::Component { .. } => Ok(()),
    }
}

fn element_profiles<'a>(
    alloc: Global,
    list: &'a Vec<ProtectedElement>,
    regions: &mut Vec<Region<'a>>,
) -> Result<(), AllocError>
    ensures { OnOk result (regions.new.items ≡ regions.old.items ++ flat_map element_regions (map element_view list.now.items)) }
{
    for one in list {
        element_profile(alloc, one, regions)?;
    }
    Ok(())
}

fn private_profiles<'a>(
    alloc: Global,
    part: &'a Option<Vec<ProtectedElement>>,
    regions: &mut Vec<Region<'a>>,
) -> Result<(), AllocError>
    ensures { OnOk result (regions.new.items
        ≡ regions.old.items ++ flat_map element_regions (unwrap_or (maybe (λ v. map element_view v.items) part.now) [])) }
{
    match part {
        None => Ok(()),
        Some(list) => element_profiles(alloc, list, regions),
    }
}

/// The region of a protected unit, and those of its operations, behind the regions before them. Err where memory was refused.
pub(crate) fn protected_unit<'a>(
    alloc: Global,
    unit: &'a ProtectedUnit,
    regions: &mut Vec<Region<'a>>,
) -> Result<(), AllocError>
    ensures { OnOk result (regions.new.items ≡ regions.old.items ++ unit_regions (protected_unit_view unit.now)) }
{
    let mut region = Region::new(alloc);
    members(unit, &mut region)?;
    regions.push(region)?;
    operation_profiles(alloc, &unit.operations, regions)?;
    private_profiles(alloc, &unit.private, regions)
}
