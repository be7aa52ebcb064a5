//! What names denote in bodies.

use rv_code::Callee;
use rv_event::entry::Exception;
use rv_shape::kind::Range;

/// An operation of a suspension object that gives no value (D.10).
#[derive(Clone, Copy)]
pub enum SuspensionOperation {
    SetTrue,
    SetFalse,
    SuspendUntilTrue,
}

/// What a name denotes at a point of a body, where it isn't a constant with a static value or a subtype.
#[derive(Clone, Copy)]
pub enum Denoted {
    /// A variable, a parameter, a loop parameter or a constant, by its slot, with the range of its values and whether it may
    /// be written (3.3).
    Variable(usize, Range, bool),
    /// A component of the protected object, by its index from 0 (9.4).
    Component(usize, Range),
    /// A protected function, with the range of its result (6.4, 9.5.1).
    Function(Callee, Range),
    /// A protected procedure or an entry (6.4, 9.5.3).
    Procedure(Callee),
    /// A suspension object, by its number in the catalogue, from 1 (D.10).
    Suspension(usize),
    /// `Set_True`, `Set_False` or `Suspend_Until_True` (D.10).
    Setter(SuspensionOperation),
    /// `Current_State` (D.10).
    CurrentState,
    /// `Ada.Real_Time.Clock` (D.8).
    Clock,
    /// An exception (11.1).
    Exception(Exception),
    /// Anything else.
    Other,
}
