//! The values that come back from a call go to their targets (6.4.1), in a unit's table.

ghost use Rattle.std.specs.Prelude.{◌≡◌, List, suc};
ghost use Rattle.rv_code.specs.declared.statement.Target.{Target as Taker};
ghost use Rattle.rv_exec.specs.declared.activation.Activation.{Activation as Run};
ghost use Rattle.rv_exec.specs.Activations.{copied_back};
ghost use Rattle.rv_flat.specs.Tables.{trees};
ghost use Rattle.rv_flat.specs.Trees.{tree_at, as_targets};

use crate::ends::is_next;
use crate::nodes::targets_at;
use rv_exec::activation::{Activation, value_at};
use rv_exec::end::End;
use rv_flat::code::Code;
use rv_value::Args;

// The index of the next value; past the last value each index is as good as another.
fn next_index(values: Args, index: usize) -> usize
    ensures { (targets : List Taker) (a : Run) → copied_back targets (suc index) values a ≡ copied_back targets result values a }
{
    if index < values.len() {
        index + 1
    } else {
        index
    }
}

/// The values go to the targets in their order; those before one that raises stay (6.4.1).
pub fn copy_back(code: &Code, targets: usize, values: Args, activation: &mut Activation) -> End
    ensures { (result, activation.new) ≡ copied_back (as_targets (tree_at (trees code.now) targets)) 0 values activation.old }
{
    let mut rest = targets;
    let mut index: usize = 0;
    'targets: while let Some(target) = targets_at(code, rest) {
        let end = activation.assign(target.target, value_at(values, index));
        if !is_next(end) {
            return end;
        }
        index = next_index(values, index);
        rest = target.rest;
    }
    End::Next
}
