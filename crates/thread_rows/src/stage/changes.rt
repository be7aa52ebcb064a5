//! Changes of the list by the operator, whose turn stays.

ghost use Rattle.std.specs.Prelude.{◌≡◌};

use rv_access::Change;
use rv_port::control::Control;
use std::sync::Wait;

/// Changes the list.
pub fn change_list<R: Wait>(rt: &R, control: &mut Control, change: Change)
    ensures { control.new.turn ≡ control.old.turn }
{
    let _ = control.change(rt, change);
}
