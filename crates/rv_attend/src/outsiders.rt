//! The tasks that belong to other processes.

ghost use Rattle.std.specs.Prelude.{◌≡◌};

use crate::follower::Follower;
use rv_staff::{Session, say};
use std::alloc::{AllocError, Global};
use std::io::Write;
use std::mem;

// What is told of a task that no unit has yet.
fn unknown_line(alloc: Global, task: &str) -> Result<String, AllocError> {
    format!(in alloc;
        "note: no unit that is loaded has the task {task} of --actor; its process waits until one has it\n"
    )
}

// Tells of the tasks that no unit has yet.
fn tell_unknown<E: Write>(session: &Session, errors: &mut E) {
    for outsider in &session.outsiders {
        let task = outsider.task.as_str();
        if session.staff.catalogue().find_task(task).is_none() {
            if let Ok(line) = unknown_line(session.alloc, task) {
                let _ = say(errors, line.as_str());
            }
        }
    }
}

/// Has threads that are started from now on serve the processes that tasks belong to. Where notes are told, it is told of which
/// there is no task yet.
pub(crate) fn open_outsiders<T, E: Write, F>(
    session: &mut Session,
    follower: &mut Follower<'_, T, F>,
    errors: &mut E,
)
    ensures staff { session.new.staff ≡ session.old.staff }
    ensures keeper { follower.new.keeper ≡ follower.old.keeper }
    ensures asked { follower.new.asked ≡ follower.old.asked }
    ensures room { follower.new.room ≡ follower.old.room }
    ensures source { follower.new.source ≡ follower.old.source }
{
    mem::swap(&mut session.outsiders, &mut follower.outsiders);
    if follower.asked.tells {
        tell_unknown(&*session, errors);
    }
}
