//! Changes of the last list.

ghost use Rattle.std.specs.Prelude.{◌≡◌, IfOk, OnErr, OnOk};
ghost use Rattle.rv_lists.specs.Kept.{with_changed};

use crate::lists::Lists;
use rv_access::Change;
use std::alloc::AllocError;

/// A copy of a change. Err where memory was refused.
pub fn copy_of(change: &Change) -> Result<Change, AllocError>
    ensures { IfOk result (λ copy. copy ≡ change.now) }
{
    match change {
        Change::Whole(list) => Ok(Change::Whole(list.copy()?)),
        Change::Append(line) => Ok(Change::Append(line.copy()?)),
        Change::Remove(number) => Ok(Change::Remove(*number)),
        Change::Replace(number, line) => Ok(Change::Replace(*number, line.copy()?)),
    }
}

impl Lists {
    /// Adds the list that a change makes of the last one, or of the empty one where there is none; nothing where the change is of
    /// a line that this list hasn't. Err where memory was refused, and then the lists are as before.
    #[tactic(auto, using(crate::proofs::Changed::line_there, crate::proofs::Changed::line_missing))]
    pub fn change(&mut self, change: Change) -> Result<(), AllocError>
        ensures ok { OnOk result (self.new ≡ with_changed self.old change) }
        ensures err { OnErr result (self.new ≡ self.old) }
    {
        match change {
            Change::Whole(list) => self.push(list),
            Change::Append(line) => self.append(&line),
            Change::Remove(number) => {
                if !self.has_line(number) {
                    return Ok(());
                }
                self.remove(number)
            }
            Change::Replace(number, line) => {
                if !self.has_line(number) {
                    return Ok(());
                }
                self.replace(number, &line)
            }
        }
    }
}
