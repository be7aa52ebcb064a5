//! Notices of how jobs ended.

ghost use Rattle.std.specs.Prelude.{◌≡◌};

use crossbeam_channel::Sender;
use rv_port::ended::Ending;
use std::sync::Wait;

/// How the text of an actor's task ended. Of a line: how its handler ended, which raised an exception. The jobs of this crate
/// alone make notices, so none tells of another's end.
#[derive(Clone, Copy, Drop)]
pub struct Notice {
    actor: u64,
    ending: Ending,
}

impl Notice {
    /// Whose text or handler it was.
    pub fn actor(&self) -> u64
        ensures { result ≡ self.now.actor }
    {
        self.actor
    }

    /// How it ended.
    pub fn ending(&self) -> Ending
        ensures { result ≡ self.now.ending }
    {
        self.ending
    }
}

/// Notifies of an end, where there is a channel. A notice that can't be sent is passed over.
pub(crate) fn notify<R: Wait>(
    rt: &R,
    notices: &Option<Sender<Notice>>,
    actor: u64,
    ending: Ending,
) {
    if let Some(sender) = notices {
        let _ = sender.send(rt, Notice { actor, ending });
    }
}
