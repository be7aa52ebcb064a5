//! Names and bodies that are given twice (8.3, 3.11.1).

ghost use Rattle.std.specs.Prelude.{◌≡◌, true, None, IfOk};
ghost use Rattle.rv_tree.specs.UnitView.{unit_view};
ghost use Rattle.rv_distinct.specs.Regions.{names_are_distinct};
ghost use Rattle.rv_distinct.specs.BodyNames.{has_one_body_each};

use crate::fault::{NameFault, earlier};
use rv_distinct::{body_twice, declared_twice};
use rv_tree::unit::UnitTree;
use std::alloc::{AllocError, Global};

// The fault of what stands twice, from its second place.
fn fault(again: Option<usize>) -> Option<NameFault>
    ensures { result ≡ None → again ≡ None }
{
    match again {
        None => None,
        Some(at) => Some(NameFault::Duplicate(at)),
    }
}

/// The fault at the least place where a region declares a name once more, or something has a further body. Err where
/// memory was refused.
pub(crate) fn duplicate(alloc: Global, tree: &UnitTree) -> Result<Option<NameFault>, AllocError>
    ensures distinct { IfOk result (λ fault. fault ≡ None → names_are_distinct (unit_view tree.now) ≡ true) }
    ensures one_body { IfOk result (λ fault. fault ≡ None → has_one_body_each (unit_view tree.now) ≡ true) }
{
    let name = declared_twice(alloc, tree)?;
    let body = body_twice(alloc, tree)?;
    Ok(earlier(fault(name), fault(body)))
}
