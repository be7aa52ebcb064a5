//! What is shown of the host, for what is done beside the commands.

ghost use Rattle.std.specs.Prelude.{◌≡◌};
ghost use Rattle.rv_attend.specs.Chores.{Chores};

use rv_staff::Staff;
use rv_view::View;
use std::sync::Wait;

/// What is shown of the host, where there is memory for it and an act left.
#[tactic(auto, using(crate::proofs::Chores::views_chores))]
pub(crate) fn view_of<T: Wait>(rt: &T, staff: &mut Staff) -> Option<View>
    ensures chores { Chores staff.old.control staff.new.control }
    ensures crew { staff.new.crew ≡ staff.old.crew }
{
    staff.view(rt).ok()
}
