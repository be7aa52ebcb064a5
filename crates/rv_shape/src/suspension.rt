//! The operations of a suspension object (D.10).

ghost use Rattle.std.specs.Prelude.{Some};
ghost use Rattle.rv_shape.specs.Catalogue.{suspension_operation_name};

use std::fmt;
use std::fmt::Write;

/// The four operations of a suspension object (D.10), in the order of their numbers.
#[derive(Clone, Copy, PartialEq, Eq, Debug, Drop)]
pub enum SuspensionOperation {
    /// `Set_True`, number 1: releases the task that waits, or else sets the state to True.
    SetTrue,
    /// `Set_False`, number 2: sets the state to False.
    SetFalse,
    /// `Current_State`, number 3: reads the state.
    CurrentState,
    /// `Suspend_Until_True`, number 4: waits until the state is True, and sets it to False.
    SuspendUntilTrue,
}

impl fmt::Display for SuspensionOperation {
    ghost output = { λ o. Some (suspension_operation_name o) };

    fn fmt<W: fmt::Write>(&self, f: &mut fmt::Formatter<W>) -> fmt::Result {
        match *self {
            SuspensionOperation::SetTrue => f.write_str("Set_True"),
            SuspensionOperation::SetFalse => f.write_str("Set_False"),
            SuspensionOperation::CurrentState => f.write_str("Current_State"),
            SuspensionOperation::SuspendUntilTrue => f.write_str("Suspend_Until_True"),
        }
    }
}
