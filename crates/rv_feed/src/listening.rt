//! A feed that is waited for, and a pipe beside it that ends the waiting.

ghost use Rattle.std.specs.Prelude.{◌≡◌, None, false, true};
ghost use Rattle.rv_feed.specs.Hearing.{Hears, IsStopped, heard, told};

use crate::feed::Came;
use crate::pair::Feed;
use rv_input::{Input, InputFault};
use std::sync::Wait;
use std::time::{Clock, Duration};

/// Hears a feed, until it is over or that is ended from outside.
#[derive(Drop)]
pub struct Listening<'a, R> {
    /// What waits.
    pub rt: &'a R,
    /// The feed.
    pub feed: Feed,
    /// What ends it: once this is over, no more is heard.
    pub stop: Option<Feed>,
}

impl<R: Wait + Clock> Listening<'_, R> {
    /// Whether it was ended from outside: what ends it has told its end.
    pub fn is_stopped(&mut self) -> bool
        ensures told { result ≡ true → IsStopped (told self.new.stop) }
        ensures plain { self.old.stop ≡ None → result ≡ false }
        ensures feed { self.new.feed ≡ self.old.feed }
    {
        match &mut self.stop {
            Some(stop) => stop.is_over(self.rt),
            None => false,
        }
    }

    /// Waits for more of the input, at most for a while, and puts it behind what was read ahead.
    ///
    /// # Errors
    /// As the read that failed, or for want of memory.
    pub fn hear(&mut self, input: &mut Input, most: Duration) -> Result<Came, InputFault>
        ensures hears { Hears (heard self.old.feed) (heard self.new.feed) input.old input.new result }
        ensures stop { self.new.stop ≡ self.old.stop }
    {
        self.feed.hear(self.rt, input, most)
    }
}
