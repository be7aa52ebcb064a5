//! What threads tell of their ends, and the operator's thread writes.

ghost use Rattle.std.specs.Prelude.{◌≡◌};

use crate::follower::Follower;
use crossbeam_channel::{Receiver, unbounded};
use rv_crew::notice::Notice;
use rv_shape::catalogue::Catalogue;
use rv_staff::{Session, notice_line, say};
use std::alloc::Global;
use std::io::Write;
use std::sync::Wait;

// How many notices are told at a look.
const MOST_NOTICES: usize = 1024;

/// Where notes are told, has threads that are started from now on notify of how they end.
pub(crate) fn open_notices<T, F>(session: &mut Session, follower: &mut Follower<'_, T, F>)
    ensures staff { session.new.staff ≡ session.old.staff }
    ensures keeper { follower.new.keeper ≡ follower.old.keeper }
    ensures asked { follower.new.asked ≡ follower.old.asked }
    ensures room { follower.new.room ≡ follower.old.room }
    ensures source { follower.new.source ≡ follower.old.source }
{
    if !follower.asked.tells {
        return;
    }
    if let Ok((sender, receiver)) = unbounded(follower.alloc) {
        session.notices = Some(sender);
        follower.notices = Some(receiver);
    }
}

// Writes a notice, if there is memory for its line.
fn tell<E: Write>(alloc: Global, catalogue: &Catalogue, notice: &Notice, errors: &mut E) {
    if let Ok(line) = notice_line(alloc, catalogue, notice) {
        let _ = say(errors, line.as_str());
    }
}

/// Writes the notices that came, by the units of a catalogue.
pub(crate) fn tell_notices<T: Wait, E: Write>(
    rt: &T,
    alloc: Global,
    catalogue: &Catalogue,
    notices: &Option<Receiver<Notice>>,
    errors: &mut E,
) {
    let Some(notices) = notices else {
        return;
    };
    for _ in 0..MOST_NOTICES {
        let Ok(notice) = notices.try_recv(rt) else {
            return;
        };
        tell(alloc, catalogue, &notice, errors);
    }
}
