//! Threads that don't end in time are given up: their actors are lost.

ghost use Rattle.std.specs.Prelude.{◌≡◌, ◌≤◌, ◌+◌, [], length, map, vec_len, OnOk, OnErr};
ghost use Rattle.std.specs.Vec.{vec_capacity};
ghost use Rattle.rv_crew.specs.Abandoning.{Abandons, PartsInto};
ghost use Rattle.rv_crew.specs.Crews.{owed};

use crate::crew::Crew;
use crate::job::Duty;
use crate::running::Running;
use std::alloc::AllocError;
use std::mem;

// Parts threads into those whose jobs have ended, and the actors of the others.
#[tactic(auto, using(crate::proofs::Parted::none, crate::proofs::Parted::stays, crate::proofs::Parted::goes))]
fn part<D: Duty>(mut threads: Vec<Running<D>>, stay: &mut Vec<Running<D>>, gone: &mut Vec<u64>)
    requires room { length threads.items + vec_len stay.old ≤ vec_capacity stay.old }
    requires names { length threads.items + vec_len gone.old ≤ vec_capacity gone.old }
    ensures parts { PartsInto (map owed threads.items) (map owed stay.old.items) gone.old.items (map owed stay.new.items) gone.new.items }
    ensures capacity { vec_capacity stay.new ≡ vec_capacity stay.old }
    ensures names { vec_capacity gone.new ≡ vec_capacity gone.old }
    ensures grown { vec_len stay.new ≤ length threads.items + vec_len stay.old }
    ensures named { vec_len gone.new ≤ length threads.items + vec_len gone.old }
{
    if let Some(last) = threads.pop() {
        part(threads, stay, gone);
        if last.has_ended() {
            stay.push_reserved(last);
        } else {
            gone.push_reserved(last.actor);
        }
    }
}

impl<D: Duty> Crew<D> {
    /// Whether the job of each thread has ended, so that all are joined without waiting. No clause says so.
    pub fn has_ended(&self) -> bool {
        for thread in self.running.as_slice() {
            if !thread.has_ended() {
                return false;
            }
        }
        true
    }

    /// Gives up the threads whose jobs haven't ended: they run on, and their actors are lost. What their ports recorded stays.
    ///
    /// # Errors
    /// Where memory is refused; then none is given up.
    pub fn abandon(&mut self) -> Result<(), AllocError>
        ensures ok { OnOk result (Abandons self.old self.new) }
        ensures err { OnErr result (self.new ≡ self.old) }
    {
        let count = self.running.len();
        let mut stay = Vec::new(self.alloc);
        stay.reserve(count)?;
        self.lost.reserve(count)?;
        let before = self.lost.len();
        let threads = mem::replace(&mut self.running, Vec::new(self.alloc));
        part(threads, &mut stay, &mut self.lost);
        self.running = stay;
        self.abandoned = self.lost.len().saturating_sub(before);
        Ok(())
    }
}
