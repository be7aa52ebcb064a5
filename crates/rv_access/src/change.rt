//! A change of an access list.

use crate::line::Line;
use crate::list::AccessList;

/// A change of the access list, as the operator asks for it. The lines of a list are numbered from 1.
#[derive(Drop)]
pub enum Change {
    /// The list, set whole.
    Whole(AccessList),
    /// A line more, at the end.
    Append(Line),
    /// A line less: that of this number.
    Remove(usize),
    /// Another line in the place of that of this number.
    Replace(usize, Line),
}
