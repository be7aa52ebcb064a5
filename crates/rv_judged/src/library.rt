//! What the predefined library packages declare.

use rv_cause::known::near_among;
use rv_cause::words::is_among;
use rv_scope::Library;
use std::alloc::{AllocError, Global};

/// The predefined names that are near to a word's spelling, to look among.
pub const NAMES: [&str; 21] = [
    "Integer",
    "Natural",
    "Positive",
    "Boolean",
    "True",
    "False",
    "Constraint_Error",
    "Program_Error",
    "Time",
    "Time_Span",
    "Clock",
    "Milliseconds",
    "Suspension_Object",
    "Set_True",
    "Set_False",
    "Current_State",
    "Suspend_Until_True",
    "Ada",
    "System",
    "Standard",
    "Host",
];

// What is said of names, with `|` between them.
#[derive(Clone, Copy)]
struct Names {
    names: &'static str,
    said: &'static str,
}

// The names that library packages declare which need a `with`.
const HOMES: [Names; 5] = [
    Names {
        names: "Time|Time_Span|Clock|Milliseconds",
        said: "Ada.Real_Time",
    },
    Names {
        names: "Suspension_Object|Set_True|Set_False|Current_State|Suspend_Until_True",
        said: "Ada.Synchronous_Task_Control",
    },
    Names {
        names: "Int_0|Int_1|Int_2|Int_3|Int_4|Int_5|Int_6|Int_7|Int_8|Int_9",
        said: "Ada.Interrupts.Names",
    },
    Names {
        names: "Priority|Interrupt_Priority|Any_Priority|Default_Priority",
        said: "System",
    },
    Names {
        names: "Access_Denied",
        said: "Host",
    },
];

// The words that names of library packages end with.
const ENDS: [Names; 5] = [
    Names {
        names: "Real_Time",
        said: "Ada.Real_Time",
    },
    Names {
        names: "Synchronous_Task_Control",
        said: "Ada.Synchronous_Task_Control",
    },
    Names {
        names: "Interrupts|Names",
        said: "Ada.Interrupts.Names",
    },
    Names {
        names: "System",
        said: "System",
    },
    Names {
        names: "Host",
        said: "Host",
    },
];

// What is said of a name, case ignored.
fn said_of_name(all: &[Names], name: &str) -> Option<&'static str> {
    for one in all {
        if is_among(name, one.names) {
            return Some(one.said);
        }
    }
    None
}

/// The library package that declares a name, if one does that needs a `with`.
pub fn home_of(name: &str) -> Option<&'static str> {
    said_of_name(&HOMES, name)
}

/// The library package whose name ends with a word, as `Real_Time`.
pub fn ends_with(word: &str) -> Option<&'static str> {
    said_of_name(&ENDS, word)
}

/// The whole name of a library package.
pub fn name_of(library: Library) -> &'static str {
    match library {
        Library::Standard => "Standard",
        Library::System => "System",
        Library::Ada => "Ada",
        Library::RealTime => "Ada.Real_Time",
        Library::SynchronousTaskControl => "Ada.Synchronous_Task_Control",
        Library::Interrupts => "Ada.Interrupts",
        Library::InterruptNames => "Ada.Interrupts.Names",
        Library::Host => "Host",
    }
}

// The library packages that a context clause names.
const PACKAGES: [&str; 5] = [
    "Ada.Real_Time",
    "Ada.Synchronous_Task_Control",
    "Ada.Interrupts.Names",
    "System",
    "Host",
];

/// The library package that a context clause may name whose name is nearest to this one; empty where none is near.
pub fn near_package(alloc: Global, name: &str) -> Result<&'static str, AllocError> {
    near_among(alloc, name, &PACKAGES)
}

const REAL_TIME: [&str; 4] = ["Time", "Time_Span", "Clock", "Milliseconds"];

const TASK_CONTROL: [&str; 5] = [
    "Suspension_Object",
    "Set_True",
    "Set_False",
    "Current_State",
    "Suspend_Until_True",
];

const PRIORITIES: [&str; 4] = [
    "Priority",
    "Interrupt_Priority",
    "Any_Priority",
    "Default_Priority",
];

/// Of the names that a library package declares the one that is nearest to a word; empty where none is near.
pub fn near_in(alloc: Global, library: Library, word: &str) -> Result<&'static str, AllocError> {
    match library {
        Library::RealTime => near_among(alloc, word, &REAL_TIME),
        Library::SynchronousTaskControl => near_among(alloc, word, &TASK_CONTROL),
        Library::System => near_among(alloc, word, &PRIORITIES),
        Library::Host => near_among(alloc, word, &["Access_Denied"]),
        _ => Ok(""),
    }
}

/// What a library package declares that is known here, in words; empty where that is said of none.
pub fn held_by(library: Library) -> &'static str {
    match library {
        Library::RealTime => "Time, Time_Span, Clock and Milliseconds",
        Library::SynchronousTaskControl => {
            "Suspension_Object, Set_True, Set_False, Current_State and Suspend_Until_True"
        }
        Library::System => "Priority, Interrupt_Priority, Any_Priority and Default_Priority",
        Library::InterruptNames => "Int_0 .. Int_9",
        Library::Host => "Access_Denied",
        _ => "",
    }
}
