//! What is said, by how a call ended.

ghost use Rattle.std.specs.Prelude.{◌≡◌, ◌++◌, [], IfOk, OnOk, List, ℕ, string_bytes};
ghost use Rattle.rv_c.specs.Endings.{IsLineOf, Refuses, nothing, says};
ghost use Rattle.rv_c.specs.Said.{said_of};

use crate::told::Told;
use rv_fault::ScriptFault;
use std::alloc::{AllocError, Global};

/// A text with nothing behind it.
pub fn said(status: i32, text: Vec<u8>) -> Told
    ensures { said_of result ≡ says status text.items [] }
{
    let fault = text.len();
    Told {
        status,
        text,
        fault,
    }
}

/// Nothing, for want of memory.
pub fn nothing(alloc: Global) -> Told
    ensures { said_of result ≡ nothing }
{
    said(3, Vec::new(alloc))
}

// The line of a fault, as the program tells it on standard error.
fn line_of(alloc: Global, fault: ScriptFault) -> Result<String, AllocError>
    ensures { IfOk result (λ line. IsLineOf fault (string_bytes line)) }
{
    let number = fault.line;
    let words = format!(in alloc; "{}", fault.what)?;
    format!(in alloc; "script line {number}: {words}\n")
}

// Adds the line of a fault.
fn add_line(alloc: Global, text: &mut Vec<u8>, fault: ScriptFault) -> Result<(), AllocError>
    ensures { OnOk result ((line : List ℕ) × IsLineOf fault line × (text.new.items ≡ text.old.items ++ line)) }
{
    let line = line_of(alloc, fault)?;
    text.extend_from_slice(line.as_bytes())
}

/// A text, and behind it the line of the fault that its script is refused for.
pub fn refused(alloc: Global, text: Vec<u8>, fault: ScriptFault) -> Told
    ensures { Refuses fault text.items (said_of result) }
{
    let mut text = text;
    let before = text.len();
    match add_line(alloc, &mut text, fault) {
        Ok(()) => Told {
            status: 1,
            text,
            fault: before,
        },
        Err(_) => nothing(alloc),
    }
}
