//! What is said to the operator.

ghost use Rattle.std.specs.Prelude.{◌≡◌, ◌++◌, ◌∷◌, [], codes, IfOk, string_bytes};
ghost use Rattle.rv_shape.specs.Printed.{actor_text};
ghost use Rattle.rv_shape.specs.Readers.{who_of};
ghost use Rattle.std.specs.List.{flat_map};
ghost use Rattle.rv_staff.specs.Saying.{Says, SaysLost, SaysNoThread, ending_head, ending_line, lost_line, notice_line};

use rv_crew::notice::Notice;
use rv_port::ended::Ending;
use rv_script::write_whole;
use rv_shape::actor::Actor;
use rv_shape::catalogue::Catalogue;
use std::alloc::{AllocError, Global};
use std::io;
use std::io::Write;

/// What is said where memory is wanted.
pub const NO_MEMORY: &str = "nomemory\n";

/// Writes a text. After a failure a prefix of it is written.
pub fn say<W: Write>(writer: &mut W, text: &str) -> io::Result<()>
    ensures { Says (W.contents writer.old) (W.contents writer.new) text.now result }
{
    match write_whole(writer, text.as_bytes()) {
        Ok(()) => Ok(()),
        Err(e) => Err(e),
    }
}

// What is said of an actor that has no thread.
fn no_thread(alloc: Global, who: &Actor) -> Result<String, AllocError>
    ensures { IfOk result (λ line. string_bytes line ≡ codes "no thread " ++ actor_text (who_of who.now) ++ 10 ∷ []) }
{
    format!(in alloc; "no thread {who}\n")
}

// What is said of an actor whose port was lost.
fn lost_line(alloc: Global, who: &Actor) -> Result<String, AllocError>
    ensures { IfOk result (λ line. string_bytes line ≡ codes "lost " ++ actor_text (who_of who.now) ++ 10 ∷ []) }
{
    format!(in alloc; "lost {who}\n")
}

// What stands before an actor where it is said how its text, or its handler, ended.
fn ending_head(who: &Actor) -> &'static str
    ensures { result.now ≡ ending_head (who_of who.now) }
{
    match who {
        Actor::Line(_) => "handler of",
        Actor::Operator => "task",
        Actor::Task(_, _) => "task",
        Actor::Nobody => "task",
    }
}

// What is said of the text of a task that ended, or of a line's handler that raised an exception.
fn ending_line(alloc: Global, who: &Actor, ending: &Ending) -> Result<String, AllocError>
    ensures { IfOk result (λ line. string_bytes line ≡ ending_line (who_of who.now) ending.now) }
{
    let head = ending_head(who);
    format!(in alloc; "{head} {who} ended: {ending}\n")
}

/// What is said of a notice, by the units of a catalogue: a line, with its line feed.
pub fn notice_line(
    alloc: Global,
    catalogue: &Catalogue,
    notice: &Notice,
) -> Result<String, AllocError>
    ensures { IfOk result (λ line. string_bytes line ≡ notice_line catalogue.now notice.now) }
{
    ending_line(
        alloc,
        &catalogue.who(notice.actor() as usize),
        &notice.ending(),
    )
}

// What is said of actors whose ports were lost.
fn lost_text(alloc: Global, catalogue: &Catalogue, lost: &[u64]) -> Result<String, AllocError>
    ensures { IfOk result (λ text. string_bytes text ≡ flat_map (lost_line catalogue.now) lost.now) }
{
    let mut text = String::new(alloc);
    'each: for actor in lost {
        let line = lost_line(alloc, &catalogue.who(*actor as usize))?;
        text.push_str(line.as_str())?;
    }
    Ok(text)
}

/// Says which actors' ports were lost, by the units of a catalogue.
pub fn say_lost<W: Write>(
    alloc: Global,
    catalogue: &Catalogue,
    lost: &[u64],
    writer: &mut W,
) -> io::Result<()>
    ensures { SaysLost (W.contents writer.old) (W.contents writer.new) catalogue.now lost.now result }
{
    match lost_text(alloc, catalogue, lost) {
        Ok(text) => say(writer, text.as_str()),
        Err(_) => say(writer, NO_MEMORY),
    }
}

/// Says that there is no thread for an actor.
pub(crate) fn say_no_thread<W: Write>(
    alloc: Global,
    catalogue: &Catalogue,
    actor: usize,
    writer: &mut W,
) -> io::Result<()>
    ensures { SaysNoThread (W.contents writer.old) (W.contents writer.new) catalogue.now actor result }
{
    match no_thread(alloc, &catalogue.who(actor)) {
        Ok(text) => say(writer, text.as_str()),
        Err(_) => say(writer, NO_MEMORY),
    }
}
