//! One move among the alternatives of a case statement (5.4).

ghost use Rattle.rv_flat.specs.Tables.{trees};
ghost use Rattle.rv_flat.specs.Trees.{tree_at, as_alternatives};
ghost use Rattle.rv_frames.specs.Frames.{Frame as Waiting, selects_of};
ghost use Rattle.std.specs.Prelude.{List};
ghost use Rattle.rv_machine.specs.Points.{control_in, Leads};

use crate::choices::covered;
use crate::nodes::alternatives_at;
use crate::point::Step;
use rv_event::entry::Exception;
use rv_exec::activation::Activation;
use rv_exec::end::{Cause, End};
use rv_flat::unit::FlatUnit;

/// The next alternative for a value: its statements where it covers the value (5.4).
pub fn select(unit: &FlatUnit, activation: &Activation, alternatives: usize, value: i64) -> Step
    ensures { (fs : List Waiting) → Leads (selects_of (as_alternatives (tree_at (trees unit.now.code) alternatives)) value activation.now) fs (control_in (trees unit.now.code) result activation.now) fs }
{
    match alternatives_at(&unit.code, alternatives) {
        None => Step::Done(End::Abandoned(Cause::Raised(Exception::ConstraintError))),
        Some(alternative) => {
            if covered(&unit.code, alternative.condition, value) {
                Step::RunsAll(alternative.statements)
            } else {
                Step::Selects(alternative.rest, value)
            }
        }
    }
}
