//! Lists one behind another, kept by what changed.

ghost use Rattle.std.specs.Prelude.{◌≡◌, ◌<◌, ◌≤◌, ◌+◌, ◌-◌, ◌∷◌, ◌++◌, [], ◌⊎◌, true, false, length, drop, slice_get, option_copied, IfOk, OnOk, OnErr};
ghost use Rattle.rv_access.specs.Changes.{appended, removed, replaced};
ghost use Rattle.rv_lists.specs.Given.{gone_of};
ghost use Rattle.rv_lists.specs.Kept.{StandsAlone, after, last_of, lists_of};

use crate::gone::Gone;
use crate::kept::Kept;
use rv_access::{AccessList, Line};
use std::alloc::{AllocError, Global};
use std::marker::Model;

// How many lists at most stand one behind another without one that is kept whole.
const MOST_BEHIND: usize = 512;

/// Lists one behind another, the oldest first. One that differs from the one before by a line costs memory for a
/// line, whatever its length; as many changes as a list has lines, at most 512, cost memory for one whole list more.
pub struct Series {
    alloc: Global,
    kept: Vec<Kept>,
    // The last list; the empty one where there is none.
    last: AccessList,
    // How many lists stand behind the last one that is kept whole.
    behind: usize,
}

impl Drop for Series {
    // A function of its own: a derived one is written out wherever lists are let go, and proved there.
    fn drop(self) {
        let Series {
            alloc: _,
            kept: _,
            last: _,
            behind: _,
        } = self;
    }
}

impl Model for Series {
    ghost use Rattle.std.specs.Prelude.{◌≡◌, List, []};
    ghost use Rattle.rv_access.specs.Words.{Words};
    ghost use Rattle.rv_lists.specs.Kept.{after, lists_of};

    ghost Value = { List (List Words) };

    ghost view = { λ l. lists_of l.kept.items };

    ghost invariant = { λ l. l.last ≡ after [] l.kept.items };
}

// Copies of what is kept of lists. Err where memory was refused.
fn copied(alloc: Global, kept: &[Kept]) -> Result<Vec<Kept>, AllocError>
    ensures lists { IfOk result (λ copies. lists_of copies.items ≡ lists_of kept.now) }
    ensures last { IfOk result (λ copies. after [] copies.items ≡ after [] kept.now) }
{
    let mut copies = Vec::with_capacity(alloc, kept.len())?;
    for i in 0..kept.len() {
        let copy = kept[i].copy(alloc)?;
        copies.push(copy)?;
    }
    Ok(copies)
}

// The last place, no further on than this one, from which on what is kept needs no list before it; 0 where there is no other.
fn alone_before(kept: &[Kept], most: usize) -> usize
    ensures most { result ≤ most }
    ensures there { 0 < result → result < length kept.now }
    ensures alone { 0 < result → StandsAlone (drop result kept.now) }
{
    let most = most.min(kept.len().saturating_sub(1));
    for i in 0..most {
        let place = most - i;
        if kept[place].is_whole() {
            return place;
        }
    }
    0
}

// Lets so many go at the front, of which there must be as many.
fn drop_front(kept: &mut Vec<Kept>, count: usize)
    requires { count ≤ length kept.old.items }
    ensures { kept.new.items ≡ drop count kept.old.items }
{
    let left = kept.len() - count;
    kept.as_mut_slice().rotate_left(count);
    kept.truncate(left);
}

impl Series {
    /// No list.
    pub fn new(alloc: Global) -> Series
        ensures { result ≡ [] }
    {
        Series {
            alloc,
            kept: Vec::new(alloc),
            last: AccessList::new(alloc),
            behind: 0,
        }
    }

    /// What they take their memory from.
    pub fn allocator(&self) -> Global {
        self.alloc
    }

    /// A copy. Err where memory was refused.
    pub fn copy(&self) -> Result<Series, AllocError>
        ensures { IfOk result (λ copy. copy ≡ self.now) }
    {
        let kept = copied(self.alloc, self.kept.as_slice())?;
        let last = self.last.copy()?;
        Ok(Series {
            alloc: self.alloc,
            kept,
            last,
            behind: self.behind,
        })
    }

    /// How many lists there are.
    #[tactic(auto, using(crate::proofs::Following::length_following))]
    pub fn len(&self) -> usize
        ensures { result ≡ length self.now }
    {
        self.kept.len()
    }

    /// The last list, if there is one.
    #[tactic(auto, using(crate::proofs::Following::last_there))]
    pub fn last(&self) -> Option<&AccessList>
        ensures { option_copied result ≡ slice_get self.now (length self.now - 1) }
    {
        if self.kept.is_empty() {
            return None;
        }
        Some(&self.last)
    }

    // Whether the next list is to be kept by what changed.
    fn keeps_change(&self, lines: usize) -> bool {
        self.behind < lines.min(MOST_BEHIND)
    }

    // How many lists stand behind the last one that is kept whole, with one more.
    fn behind_with(&self, is_whole: bool) -> usize {
        if is_whole {
            0
        } else {
            self.behind.saturating_add(1)
        }
    }

    /// Adds the last list, or the empty one where there is none, with one more line at its end, of which it makes copies.
    /// Err where memory was refused, and then the lists are as before.
    #[tactic(auto, using(crate::proofs::Following::last_is))]
    pub fn append(&mut self, line: &Line) -> Result<(), AllocError>
        ensures ok { OnOk result (self.new ≡ self.old ++ appended (last_of self.old) line.now ∷ []) }
        ensures err { OnErr result (self.new ≡ self.old) }
    {
        if self.keeps_change(self.last.len()) {
            self.append_change(line)
        } else {
            let list = self.last.appended(line)?;
            self.push_whole(list)
        }
    }

    /// Adds the last list without the line of a number, which must be one of 1 .. `lines`. Err where memory was refused, and
    /// then the lists are as before.
    #[tactic(auto, using(crate::proofs::Following::last_is))]
    pub fn remove(&mut self, number: usize) -> Result<(), AllocError>
        requires counted { 0 < number }
        requires there { number ≤ length (last_of self.old) }
        ensures ok { OnOk result (self.new ≡ self.old ++ removed (last_of self.old) number ∷ []) }
        ensures err { OnErr result (self.new ≡ self.old) }
    {
        if self.keeps_change(self.last.len()) {
            self.remove_change(number)
        } else {
            let list = self.last.removed(number)?;
            self.push_whole(list)
        }
    }

    /// Adds the last list with another line in place of that of a number, which must be one of 1 .. `lines`; it makes copies
    /// of the line. Err where memory was refused, and then the lists are as before.
    #[tactic(auto, using(crate::proofs::Following::last_is))]
    pub fn replace(&mut self, number: usize, line: &Line) -> Result<(), AllocError>
        requires counted { 0 < number }
        requires there { number ≤ length (last_of self.old) }
        ensures ok { OnOk result (self.new ≡ self.old ++ replaced (last_of self.old) number line.now ∷ []) }
        ensures err { OnErr result (self.new ≡ self.old) }
    {
        if self.keeps_change(self.last.len()) {
            self.replace_change(number, line)
        } else {
            let list = self.last.replaced(number, line)?;
            self.push_whole(list)
        }
    }

    // Appends a line to the last list, where it is; the change is kept.
    #[tactic(auto, using(crate::proofs::Following::following_push, crate::proofs::Following::after_push, crate::proofs::Following::last_is))]
    fn append_change(&mut self, line: &Line) -> Result<(), AllocError>
        ensures ok { OnOk result (self.new ≡ self.old ++ appended (last_of self.old) line.now ∷ []) }
        ensures err { OnErr result (self.new ≡ self.old) }
    {
        let kept = Kept::appended(self.alloc, self.last.len(), line)?;
        let copy = line.copy()?;
        let behind = self.behind_with(kept.is_whole());
        self.kept.reserve(1)?;
        self.last.push(copy)?;
        let Ok(()) = self.kept.push(kept) else {
            unreachable!()
        };
        self.behind = behind;
        Ok(())
    }

    // Takes a line out of the last list, where it is; the change is kept.
    #[tactic(auto, using(crate::proofs::Following::following_push, crate::proofs::Following::after_push, crate::proofs::Following::last_is))]
    fn remove_change(&mut self, number: usize) -> Result<(), AllocError>
        requires counted { 0 < number }
        requires there { number ≤ length (last_of self.old) }
        ensures ok { OnOk result (self.new ≡ self.old ++ removed (last_of self.old) number ∷ []) }
        ensures err { OnErr result (self.new ≡ self.old) }
    {
        let kept = Kept::removed(self.alloc, self.last.len(), number);
        let behind = self.behind_with(kept.is_whole());
        self.kept.push(kept)?;
        self.last.take_out(number);
        self.behind = behind;
        Ok(())
    }

    // Puts a line in place of another of the last list, where it is; the change is kept.
    #[tactic(auto, using(crate::proofs::Following::following_push, crate::proofs::Following::after_push, crate::proofs::Following::last_is))]
    fn replace_change(&mut self, number: usize, line: &Line) -> Result<(), AllocError>
        requires counted { 0 < number }
        requires there { number ≤ length (last_of self.old) }
        ensures ok { OnOk result (self.new ≡ self.old ++ replaced (last_of self.old) number line.now ∷ []) }
        ensures err { OnErr result (self.new ≡ self.old) }
    {
        let kept = Kept::replaced(self.alloc, self.last.len(), number, line)?;
        let copy = line.copy()?;
        let behind = self.behind_with(kept.is_whole());
        self.kept.push(kept)?;
        self.last.put(number, copy);
        self.behind = behind;
        Ok(())
    }

    /// Adds a list at the end. Err where memory was refused, and then the lists are as before.
    pub fn push(&mut self, list: AccessList) -> Result<(), AllocError>
        ensures ok { OnOk result (self.new ≡ self.old ++ list ∷ []) }
        ensures err { OnErr result (self.new ≡ self.old) }
    {
        if self.keeps_change(list.len()) {
            self.push_change(list)
        } else {
            self.push_whole(list)
        }
    }

    // Adds a list, kept by what changed.
    #[tactic(auto, using(crate::proofs::Following::following_push, crate::proofs::Following::after_push))]
    fn push_change(&mut self, list: AccessList) -> Result<(), AllocError>
        ensures ok { OnOk result (self.new ≡ self.old ++ list ∷ []) }
        ensures err { OnErr result (self.new ≡ self.old) }
    {
        let kept = Kept::between(self.alloc, &self.last, &list)?;
        let is_whole = kept.is_whole();
        self.kept.push(kept)?;
        self.last = list;
        self.behind = self.behind_with(is_whole);
        Ok(())
    }

    // Adds a list, kept whole.
    #[tactic(auto, using(crate::proofs::Following::following_push, crate::proofs::Following::after_push))]
    fn push_whole(&mut self, list: AccessList) -> Result<(), AllocError>
        ensures ok { OnOk result (self.new ≡ self.old ++ list ∷ []) }
        ensures err { OnErr result (self.new ≡ self.old) }
    {
        let kept = Kept::whole(self.alloc, &list)?;
        self.kept.push(kept)?;
        self.last = list;
        self.behind = 0;
        Ok(())
    }

    // Whether the last list, or the empty one where there is none, has a line of a number, which counts from 1.
    #[tactic(auto, using(crate::proofs::Following::last_is))]
    pub(crate) fn has_line(&self, number: usize) -> bool
        ensures there { result ≡ true → (0 < number) × (number ≤ length (last_of self.now)) }
        ensures missing { result ≡ false → (number ≡ 0) ⊎ (length (last_of self.now) < number) }
    {
        0 < number && number <= self.last.len()
    }

    /// Lets lists go at the front, as many as can be and at most so many, of which proofs keep the names; the last one stays. Gives
    /// how many. It takes no memory.
    #[tactic(auto, using(crate::proofs::Leaving::all_there, crate::proofs::Leaving::counted, crate::proofs::Leaving::last_stays))]
    pub fn give_up(&mut self, gone: &mut Gone, most: usize) -> usize
        ensures all { gone_of gone.new ++ self.new ≡ gone_of gone.old ++ self.old }
        ensures count { length (gone_of gone.new) ≡ length (gone_of gone.old) + result }
        ensures most { result ≤ most }
        ensures some { 0 < length self.old → 0 < length self.new }
        ensures none { length self.old ≡ 0 → gone_of gone.new ≡ gone_of gone.old }
    {
        let count = alone_before(self.kept.as_slice(), most);
        if count == 0 {
            return 0;
        }
        *gone = gone.with(self, count);
        drop_front(&mut self.kept, count);
        count
    }

    // What is kept of each list.
    pub(crate) fn kept(&self) -> &[Kept]
        ensures { lists_of result.now ≡ self.now }
    {
        self.kept.as_slice()
    }
}
