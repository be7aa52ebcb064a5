//! The last queued call of each actor.

ghost use Rattle.std.specs.Prelude.{◌≡◌, List, ◌∷◌, length};
ghost use Rattle.rv_event.specs.Lent.{whole};
ghost use Rattle.rv_event.specs.declared.entry.Entry.{Entry};
ghost use Rattle.rv_present.specs.Calls.{AreCalls};
ghost use Rattle.rv_present.specs.Known.{AreBelow};

use crate::by_actor::ByActor;
use rv_event::entry::EntryRef;
use rv_event::one_entry::queued_by;

/// The last queued calls after one more entry.
#[tactic(auto, using(crate::proofs::Calling::calls_kept, crate::proofs::Calling::calls_set))]
pub fn note(calls: &mut ByActor, entry: &EntryRef)
    requires { AreBelow (length calls.old) (whole entry.now) }
    ensures same { length calls.new ≡ length calls.old }
    ensures kept { (past : List Entry) → AreCalls past calls.old →
        AreCalls (whole entry.now ∷ past) calls.new }
{
    if let Some(call) = queued_by(entry) {
        calls.put(call.actor, Some(call));
    }
}
