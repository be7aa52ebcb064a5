//! The end of a control: the host comes back.

ghost use Rattle.std.specs.Prelude.{◌≡◌, ◌≤◌, ◌+◌, [], false, IfOk, IfErr, length, map, reverse, vec_len};
ghost use Rattle.std.specs.Vec.{vec_capacity};
ghost use Rattle.rv_turn.specs.Histories.{Each};
ghost use Rattle.rv_port.specs.Closing.{HasMet, IsClosed};
ghost use Rattle.rv_port.specs.Ports.{pass_of};

use super::Control;
use crate::note::Note;
use crate::own_pass::OwnPass;
use crate::port::Finished;
use rv_behind::behind::Behind;
use rv_host::host::Host;
use rv_turn::Pass;
use std::sync::Wait;

/// A control that wasn't closed for want of memory, with the ports and notes that were given.
#[derive(Drop)]
pub struct Unclosed {
    pub control: Control,
    pub finished: Vec<Finished>,
    pub notes: Vec<Note>,
}

// The passes of ports that are done, the last first.
fn take_passes(passes: &mut Vec<Pass<Behind>>, mut finished: Vec<Finished>)
    requires empty { passes.old.items ≡ [] }
    requires room { length finished.items + vec_len passes.old ≤ vec_capacity passes.old }
    ensures passes { passes.new.items ≡ reverse (map pass_of finished.items) }
    ensures given { Each (λ p. (p.first ≡ false) × (p.base ≡ [])) passes.new.items }
{
    while let Some(done) = finished.pop() {
        passes.push_reserved(done.into_pass());
    }
}

// From now on the pass has seen all that is noted.
#[tactic(auto, using(crate::proofs::Closings::none_met, crate::proofs::Closings::next_turn, crate::proofs::Closings::one_met, crate::proofs::Closings::all_met))]
fn meet_all(pass: &mut OwnPass, notes: Vec<Note>)
    requires { Each (λ note. note.turn ≡ pass.old.turn) notes.items }
    ensures { HasMet pass.old notes.items pass.new }
{
    let mut notes = notes;
    while let Some(told) = notes.pop() {
        let Note { note } = told;
        pass.meet(note);
    }
}

impl Control {
    /// The host, whose journal has all that the control and the given ports did, and all that is
    /// noted, as of ports that were lost. It waits for the turn and keeps it, so a port that is still
    /// out waits for ever from then on: join the threads first. Ports and notes are of this control.
    /// Where there is no memory, all come back.
    pub fn close<R: Wait>(
        self,
        rt: &R,
        finished: Vec<Finished>,
        notes: Vec<Note>,
    ) -> Result<Host, Unclosed>
        requires finished { Each (λ f. f.turn ≡ self.turn) finished.items }
        requires notes { Each (λ note. note.turn ≡ self.turn) notes.items }
        ensures ok { IfOk result (λ h. IsClosed self (map pass_of finished.items) notes.items h) }
        ensures err { IfErr result (λ u. (u.control ≡ self) × (u.finished.items ≡ finished.items) × (u.notes.items ≡ notes.items)) }
    {
        let mut passes = Vec::new(self.alloc);
        if passes.reserve(finished.len()).is_err() {
            return Err(Unclosed {
                control: self,
                finished,
                notes,
            });
        }
        take_passes(&mut passes, finished);
        let Control {
            alloc: _,
            turn,
            mut pass,
            bell: _,
            given: _,
            catalogue: _,
            lists: _,
            worded_from: _,
            stacks: _,
        } = self;
        meet_all(&mut pass, notes);
        let first = pass.into_pass();
        let behind = turn.close(rt, first, passes);
        let host = behind.into_host();
        host.replays();
        Ok(host)
    }
}
