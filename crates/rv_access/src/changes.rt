//! The lists that changes of one line make.

ghost use Rattle.std.specs.Prelude.{◌≡◌, ◌<◌, ◌≤◌, length, IfOk};
ghost use Rattle.rv_access.specs.Changes.{appended, removed, replaced};

use crate::line::Line;
use crate::list::AccessList;
use std::alloc::AllocError;

impl AccessList {
    /// The list with one more line at its end. Err where memory was refused.
    pub fn appended(&self, line: &Line) -> Result<AccessList, AllocError>
        ensures { IfOk result (λ list. list ≡ appended self.now line.now) }
    {
        let mut list = self.copy()?;
        list.push(line.copy()?)?;
        Ok(list)
    }

    /// The list without the line of a number, which must be one of 1 .. `len`. Err where memory was
    /// refused.
    pub fn removed(&self, number: usize) -> Result<AccessList, AllocError>
        requires counted { 0 < number }
        requires there { number ≤ length self.now }
        ensures { IfOk result (λ list. list ≡ removed self.now number) }
    {
        let mut list = self.copy()?;
        list.take_out(number);
        Ok(list)
    }

    /// The list with another line in place of that of a number, which must be one of 1 .. `len`.
    /// Err where memory was refused.
    pub fn replaced(&self, number: usize, line: &Line) -> Result<AccessList, AllocError>
        requires counted { 0 < number }
        requires there { number ≤ length self.now }
        ensures { IfOk result (λ list. list ≡ replaced self.now number line.now) }
    {
        let mut list = self.copy()?;
        list.put(number, line.copy()?);
        Ok(list)
    }
}
