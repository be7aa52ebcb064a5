//! Bodies of operations and tasks (6.3, 9.1, 9.4, 9.5.2).

ghost use Rattle.std.specs.Prelude.{◌≡◌, length, nat_lt, true};
ghost use Rattle.std.specs.List.{list_all};

use crate::expression::Expression;
use crate::statement::{Statement, Target};
use rv_event::entry::Exception;
use rv_shape::kind::Parameter;

/// The most slots of a body: 4 parameters, 64 variables and loop parameters that are open together, and 64 constants whose
/// values aren't static; the limits are our own.
pub const MOST_SLOTS: usize = 132;

/// A variable or a constant of a body with its initial value (3.3.1). One without an initial value starts at the first
/// value of its range, a Time or a Time_Span at 0 (own).
#[derive(Drop)]
pub struct Declaration {
    pub target: Target,
    pub initial: Expression,
}

/// What a handler names (11.2).
#[derive(Clone, Copy)]
pub enum ExceptionChoice {
    /// An exception.
    Named(Exception),
    /// `others`.
    Others,
}

/// `when Choice | Choice =>` and its statements (11.2).
#[derive(Drop)]
pub struct Handler {
    pub choices: Vec<ExceptionChoice>,
    pub statements: Vec<Statement>,
}

/// The body of an operation or a task. Its parameters have the slots from 0 on, in the order of declaration.
#[derive(Drop)]
pub struct Body {
    pub parameters: Vec<Parameter>,
    pub is_function: bool,
    pub declarations: Vec<Declaration>,
    pub statements: Vec<Statement>,
    pub handlers: Vec<Handler>,
}

/// The bodies of an object's operations, in the order of their numbers; none for a suspension object.
#[derive(Drop)]
pub struct ObjectBodies {
    pub operations: Vec<Body>,
}

/// The bodies of a unit, in the order of the numbers of its objects, protected and suspension together, and of its
/// tasks. Objects whose operations have the same bodies may share one list of them. In a unit without a text no operation
/// and no task has a body.
pub struct UnitBodies {
    /// The lists that objects have.
    pub lists: Vec<ObjectBodies>,
    /// The list of each object, by its index from 0.
    pub objects: Vec<usize>,
    pub tasks: Vec<Option<Body>>,
    ghost listed: { list_all (λ list. nat_lt list (length lists.items)) objects.items ≡ true },
}

impl Drop for UnitBodies {
    // A function of its own: a derived one is written out wherever bodies are let go, and proved there.
    fn drop(self) {
        let UnitBodies {
            lists: _,
            objects: _,
            tasks: _,
        } = self;
    }
}
