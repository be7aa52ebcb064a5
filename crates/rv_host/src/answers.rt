//! The answers to a list of commands.

use rv_event::entry::Answer;
use rv_journal::reserved::Reserved;

/// Answers, in the order in which they were given, in room that is taken before the first.
pub type Answers = Reserved<Answer>;
