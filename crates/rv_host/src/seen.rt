//! A history, and the fields that stand for it, of which the questions are asked, with the table of its
//! list in force.

use rv_history::limits::Limits;
use rv_journal::journal::Journal;
use rv_lists::Lists;
use rv_present::Present;
use rv_shape::catalogue::Catalogue;
use rv_table::Table;
use rv_waiting::waiting::Waiting;

/// A history, and what is kept of it. The journal and the lists only name the history: no question
/// reads them.
#[derive(Clone, Copy)]
pub struct Seen<'a> {
    pub limits: Limits,
    pub catalogue: &'a Catalogue,
    pub journal: &'a Journal,
    pub lists: &'a Lists,
    pub table: &'a Table,
    pub present: &'a Present,
    pub waiting: &'a Waiting,
}
