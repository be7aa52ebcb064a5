//! What code stands in.

ghost use Rattle.std.specs.Prelude.{◌≡◌};
ghost use Rattle.rv_ranged.specs.Ranged.{stand_of, task_stand, result_of};

use rv_shape::kind::{Component, Kind, Parameter, Range};
use rv_shape::object::{Operation, ProtectedObject};
use std::marker::Model;

/// The operations and the components of a body's object, none for a task, its own parameters, and the range of its result.
#[derive(Drop)]
pub(crate) struct Stand<'a> {
    pub operations: &'a [Operation],
    pub components: &'a [Component],
    pub parameters: &'a [Parameter],
    pub result: Option<Range>,
}

impl<'a> Model for Stand<'a> {
    ghost use Rattle.rv_ranged.specs.Ranged.{Stand};

    ghost Value = { Stand };

    ghost view = { λ s. record {
      operations = s.operations.now;
      components = s.components.now;
      parameters = s.parameters.now;
      result = s.result;
    } };
}

fn result_of(kind: Kind) -> Option<Range>
    ensures { result ≡ result_of kind }
{
    match kind {
        Kind::Function(range) => Some(range),
        _ => None,
    }
}

impl<'a> Stand<'a> {
    /// That of an operation's body.
    pub fn of(object: &'a ProtectedObject, operation: &'a Operation) -> Stand<'a>
        ensures { result ≡ stand_of object.now operation.now }
    {
        Stand {
            operations: object.operations(),
            components: object.components(),
            parameters: operation.parameters(),
            result: result_of(operation.kind()),
        }
    }

    /// That of a task's body.
    pub fn of_task() -> Stand<'a>
        ensures { result ≡ task_stand }
    {
        Stand {
            operations: &[],
            components: &[],
            parameters: &[],
            result: None,
        }
    }
}
