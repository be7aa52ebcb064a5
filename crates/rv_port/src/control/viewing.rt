//! What the operator is shown.

ghost use Rattle.std.specs.Prelude.{◌≡◌, IfErr, IfOk};
ghost use Rattle.rv_behind.specs.Acting.{Does};
ghost use Rattle.rv_behind.specs.Events.{by};
ghost use Rattle.rv_port.specs.Viewing.{NotViewed};
ghost use Rattle.rv_turn.specs.Passes.{Acted};

use super::Control;
use crate::fault::PageFault;
use rv_behind::event::{Ask, Reply};
use rv_view::View;
use std::sync::Wait;

impl Control {
    /// What is shown of the host: the clock, the room, the list in force with its version, what each task is at, and who
    /// waits where. It adds no entry.
    ///
    /// # Errors
    /// `NoMemory` where memory was refused, `Worn` where no act is left.
    pub fn view<R: Wait>(&mut self, rt: &R) -> Result<View, PageFault>
        ensures ok { IfOk result (λ view. Acted by Does self.old Ask.View (Reply.Viewed view) self.new) }
        ensures err { IfErr result (λ fault. NotViewed self.old fault self.new) }
    {
        match self.pass.act(rt, Ask::View) {
            Ok(Reply::Viewed(view)) => Ok(view),
            Ok(_) => Err(PageFault::NoMemory),
            Err(_) => Err(PageFault::Worn),
        }
    }
}
