//! The parts of an answer, in numbers.

ghost use Rattle.std.specs.Prelude.{◌≡◌};
ghost use Rattle.rv_c_host.specs.Numbers as numbers;

use rv_event::entry::{Answer, Next, Rule};

/// There is no host behind the handle.
pub const NO_HOST: i32 = -9;
/// There is a host behind the handle already.
pub const HAS_HOST: i32 = -10;
/// The text isn't what it should be.
pub const BAD_TEXT: i32 = -11;
/// What is asked is no request.
pub const BAD_REQUEST: i32 = -12;
/// The name is none.
pub const UNKNOWN_NAME: i32 = -13;
/// The capacity or the limit of queues is none.
pub const BAD_LIMIT: i32 = -14;
/// Memory was refused.
pub const NO_MEMORY: i32 = -8;

/// The kind of an answer.
pub fn kind_of(answer: &Answer) -> i32
    ensures { result ≡ numbers.kind_of answer.now }
{
    match answer {
        Answer::Started(_) => 1,
        Answer::Queued => 2,
        Answer::Refused(_, _, _) => 3,
        Answer::Done(_) => 4,
        Answer::Suspended => 5,
        Answer::Delayed => 6,
        Answer::Woken(None) => 7,
        Answer::Accepted(_) => 8,
        Answer::Woken(Some(_)) => 9,
        Answer::Misuse => -1,
        Answer::Halted => -2,
        Answer::Full => -3,
        Answer::Busy => -4,
        Answer::Waiting => -5,
        Answer::Unattached => -6,
        Answer::BadLine => -7,
        Answer::OutOfMemory => -8,
    }
}

// The number of a rule.
fn rule_number(rule: Rule) -> i32
    ensures { result ≡ numbers.rule_number rule }
{
    match rule {
        Rule::Grant => 1,
        Rule::Blocking => 2,
        Rule::Reentry => 3,
        Rule::Ceiling => 4,
        Rule::Queue => 5,
        Rule::Waiter => 6,
    }
}

/// The rule that an answer names.
pub fn rule_of(answer: &Answer) -> i32
    ensures { result ≡ numbers.rule_of answer.now }
{
    match answer {
        Answer::Refused(rule, _, _) => rule_number(*rule),
        Answer::Done(Next::Dropped(_, _)) => 1,
        _ => 0,
    }
}

/// The line of the list that decided it.
pub fn line_of(answer: &Answer) -> usize
    ensures { result ≡ numbers.line_of answer.now }
{
    match answer {
        Answer::Refused(_, line, _) => *line,
        Answer::Done(Next::Dropped(_, line)) => *line,
        _ => 0,
    }
}

/// The version of the list that it names.
pub fn version_of(answer: &Answer) -> usize
    ensures { result ≡ numbers.version_of answer.now }
{
    match answer {
        Answer::Refused(_, _, version) => *version,
        _ => 0,
    }
}

/// The queued caller that it names.
pub fn actor_of(answer: &Answer) -> usize
    ensures { result ≡ numbers.actor_of answer.now }
{
    match answer {
        Answer::Done(Next::HandedTo(actor)) => *actor,
        Answer::Done(Next::Dropped(actor, _)) => *actor,
        _ => 0,
    }
}

/// What was accepted with a value.
pub fn value_of(answer: &Answer) -> i64
    ensures { result ≡ numbers.value_of answer.now }
{
    match answer {
        Answer::Accepted(value) => *value,
        _ => 0,
    }
}

/// The components that a body starts with.
pub fn scalars_of(answer: &Answer) -> &[i64]
    ensures { result.now ≡ numbers.scalars_of answer.now }
{
    match answer {
        Answer::Started(values) => values.as_slice(),
        Answer::Woken(Some(values)) => values.as_slice(),
        _ => &[],
    }
}
