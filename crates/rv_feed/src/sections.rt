//! The sections of a script are heard, up to its commands.

ghost use Rattle.std.specs.Prelude.{◌≡◌, IfOk, false};
ghost use Rattle.rv_feed.specs.Hearing.{HearsOn, SectionsCome, heard, told};
ghost use Rattle.rv_feed.specs.Order.{IsOver};

use crate::feed::Came;
use crate::listening::Listening;
use rv_input::{Input, InputFault, Looked};
use std::sync::Wait;
use std::time::{Clock, Duration};

// How long a wait for the input lasts before it is looked whether it was ended, in milliseconds.
const SLICE: u64 = 16;

impl<R: Wait + Clock> Listening<'_, R> {
    // Hears the next piece of the input, if it comes in time. False where the input is over.
    #[tactic(auto, using(crate::proofs::Heard::hears_one))]
    fn hear_more(&mut self, input: &mut Input) -> Result<bool, InputFault>
        ensures hears { IfOk result (λ _. HearsOn (heard self.old.feed) (heard self.new.feed) input.old input.new) }
        ensures over { IfOk result (λ goes. goes ≡ false → IsOver (heard self.new.feed)) }
        ensures stop { self.new.stop ≡ self.old.stop }
    {
        match self.hear(input, Duration::from_millis(SLICE)) {
            Ok(Came::Bytes) => Ok(true),
            Ok(Came::Nothing) => Ok(true),
            Ok(Came::Over) => Ok(false),
            Err(fault) => Err(fault),
        }
    }

    /// Hears the input until the sections that stand before its commands have come whole, with the line `@run`; or until
    /// no more is waited for: the input is over, went past its greatest length, or was ended from outside.
    ///
    /// # Errors
    /// As the read that failed, or for want of memory.
    pub fn hear_sections(&mut self, input: &mut Input) -> Result<(), InputFault>
        ensures hears { IfOk result (λ _. HearsOn (heard self.old.feed) (heard self.new.feed) input.old input.new) }
        ensures come { IfOk result (λ _. SectionsCome (heard self.new.feed) (told self.new.stop) input.new) }
    {
        let rt = self.rt;
        let mut looked = Looked::new();
        for _ in rt.forever() {
            if looked.has_sections(input) || self.is_stopped() {
                return Ok(());
            }
            match self.hear_more(input) {
                Ok(true) => {}
                Ok(false) => return Ok(()),
                Err(fault) => return Err(fault),
            }
        }
        unreachable!()
    }
}
