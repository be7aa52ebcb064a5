//! Bodies of operations that don't conform to their declarations (6.3.1, 9.4).

ghost use Rattle.std.specs.Prelude.{◌≡◌, true, None, IfOk};
ghost use Rattle.rv_tree.specs.UnitView.{unit_view};
ghost use Rattle.rv_conform.specs.Conforms.{bodies_conform};

use crate::fault::NameFault;
use rv_conform::profile_mismatch;
use rv_shape::catalogue::Catalogue;
use rv_tree::unit::UnitTree;
use std::alloc::{AllocError, Global};

// The fault of a body that doesn't conform, from the place of its name.
fn fault(mismatch: Option<usize>) -> Option<NameFault>
    ensures { result ≡ None → mismatch ≡ None }
{
    match mismatch {
        None => None,
        Some(at) => Some(NameFault::WrongKind(at)),
    }
}

/// The fault of the first body of an operation that conforms to no declaration of its protected unit. Err where memory was
/// refused.
pub(crate) fn nonconforming(
    alloc: Global,
    tree: &UnitTree,
    catalogue: &Catalogue,
) -> Result<Option<NameFault>, AllocError>
    ensures { IfOk result (λ fault. fault ≡ None → bodies_conform catalogue.now (unit_view tree.now) ≡ true) }
{
    Ok(fault(profile_mismatch(alloc, tree, catalogue)?))
}
