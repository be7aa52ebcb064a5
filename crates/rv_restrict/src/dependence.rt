//! Units that no `with` may name.

ghost use Rattle.std.specs.Prelude.{◌≡◌, map};
ghost use Rattle.rv_tree.specs.NameView.{identifier_view, name_view};
ghost use Rattle.rv_restrict.specs.Dependences.{begins, begins_with, is_of_execution_time, is_of_ada, is_excluded, is_only, is_dynamic_priorities};

use rv_text::is_same_name;
use rv_tree::{Identifier, Name};

// Whether the names begin with this one.
#[tactic(auto, unfolding(crate::specs::Dependences::begins))]
fn begins(names: &[Identifier], word: &str) -> bool
    ensures { result ≡ begins (map identifier_view names.now) word.now }
{
    match names {
        [] => false,
        [first, ..] => is_same_name(first.text.as_str(), word),
    }
}

// Whether the names begin with these two.
#[tactic(auto, unfolding(crate::specs::Dependences::begins_with))]
fn begins_with(names: &[Identifier], word: &str, next: &str) -> bool
    ensures { result ≡ begins_with (map identifier_view names.now) word.now next.now }
{
    match names {
        [] => false,
        [first, more @ ..] => is_same_name(first.text.as_str(), word) && begins(more, next),
    }
}

// Whether the names behind `Ada.` are those of a unit of Ada.Execution_Time in the list, or of one below it.
#[tactic(auto, unfolding(crate::specs::Dependences::is_of_execution_time))]
fn is_of_execution_time(names: &[Identifier]) -> bool
    ensures { result ≡ is_of_execution_time (map identifier_view names.now) }
{
    begins_with(names, "Execution_Time", "Group_Budgets")
        || begins_with(names, "Execution_Time", "Timers")
}

// Whether the names behind `Ada.` are those of a unit of the list, or of one below it.
#[tactic(auto, unfolding(crate::specs::Dependences::is_of_ada))]
fn is_of_ada(names: &[Identifier]) -> bool
    ensures { result ≡ is_of_ada (map identifier_view names.now) }
{
    begins(names, "Asynchronous_Task_Control")
        || begins(names, "Calendar")
        || begins(names, "Synchronous_Barriers")
        || begins(names, "Task_Attributes")
        || is_of_execution_time(names)
}

// Whether it is a unit of the list, or one below it.
pub(crate) fn is_excluded(name: &Name) -> bool
    ensures { result ≡ is_excluded (name_view name.now) }
{
    let first = name.first.text.as_str();
    let more = name.more.as_slice();
    is_same_name(first, "Ada") && is_of_ada(more)
        || is_same_name(first, "System")
            && begins_with(more, "Multiprocessors", "Dispatching_Domains")
}

// Whether it is `Ada.Dynamic_Priorities`.
pub(crate) fn is_dynamic_priorities(name: &Name) -> bool
    ensures { result ≡ is_dynamic_priorities (name_view name.now) }
{
    match name.more.as_slice() {
        [only] => {
            is_same_name(name.first.text.as_str(), "Ada")
                && is_same_name(only.text.as_str(), "Dynamic_Priorities")
        }
        _ => false,
    }
}
