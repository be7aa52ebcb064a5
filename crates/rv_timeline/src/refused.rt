//! What an entry was refused.

ghost use Rattle.std.specs.Prelude.{◌≡◌, ◌-◌, List};
ghost use Rattle.rv_shape.specs.Catalogue.{handler};
ghost use Rattle.rv_event.specs.Lent.{whole};
ghost use Rattle.rv_event.specs.Past.{fired};
ghost use Rattle.rv_event.specs.declared.entry.Entry.{Entry};
ghost use Rattle.rv_lasting.specs.Calls.{KeepsCalls};
ghost use Rattle.rv_timeline.specs.Timelines.{refused_by};

use rv_event::entry::{Body, EntryRef, Recorded, Request};
use rv_lasting::calls::Calls;
use rv_shape::catalogue::Catalogue;

// The call of its handler by a fired line, if it has one (C.3).
fn fired_by(catalogue: &Catalogue, actor: usize) -> Option<Body>
    ensures { result ≡ fired actor (handler catalogue.now (actor - 1)) }
{
    match catalogue.handler(actor.saturating_sub(1)) {
        Some((object, operation)) => Some(Body {
            actor,
            object,
            operation,
        }),
        None => None,
    }
}

/// The call that an entry was refused, if it was refused one: of a fired line that of its handler, of a resume its queued call; any
/// other request is of no object.
pub fn refused_by(catalogue: &Catalogue, calls: &Calls, entry: &EntryRef<'_>) -> Option<Body>
    ensures { (past : List Entry) → KeepsCalls calls.now past → result ≡ refused_by catalogue.now past (whole entry.now) }
{
    let EntryRef::Asked(actor, request, Recorded::Refused(_, _, _)) = *entry else {
        return None;
    };
    match *request {
        Request::Call(object, operation, _) => Some(Body {
            actor,
            object,
            operation,
        }),
        Request::Fire => fired_by(catalogue, actor),
        Request::Resume => calls.of(actor),
        _ => Some(Body {
            actor,
            object: 0,
            operation: 0,
        }),
    }
}
