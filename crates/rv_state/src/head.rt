//! The clock and the list in force.

ghost use Rattle.std.specs.Prelude.{◌≡◌, ◌∷◌, ◌++◌, [], IfOk, OnOk, codes, length, option_copied, string_bytes};
ghost use Rattle.std.specs.Fmt.{decimal};
ghost use Rattle.rv_access.specs.Lines.{line_at};
ghost use Rattle.rv_history.specs.History.{force};
ghost use Rattle.rv_state.specs.States.{clock_line, halted_word, head_text, lines_below, list_line, numbered_line, start_text};

use rv_access::Line;
use rv_host::host::Host;
use std::alloc::{AllocError, Global};

// What is said of a host that is halted.
fn halted_word(is_halted: bool) -> &'static str
    ensures { result.now ≡ halted_word is_halted }
{
    if is_halted { ", halted" } else { "" }
}

// Puts the clock.
fn put_clock(text: &mut String, host: &Host) -> Result<(), AllocError>
    ensures { OnOk result (string_bytes text.new ≡ string_bytes text.old ++ clock_line host.now) }
{
    let clock = host.clock();
    let halted = halted_word(host.is_halted());
    write!(text, "clock {clock}{halted}\n")
}

// How many lines the list in force has.
fn lines(host: &Host) -> usize
    ensures { result ≡ length (force host.now) }
{
    match host.list() {
        Some(list) => list.len(),
        None => 0,
    }
}

// Puts the version of a list, and how many lines it has.
fn put_counts(text: &mut String, version: usize, lines: usize) -> Result<(), AllocError>
    ensures { OnOk result (string_bytes text.new ≡ string_bytes text.old
        ++ (codes "list version " ++ (decimal version ++ (codes ", lines " ++ (decimal lines ++ 10 ∷ []))))) }
{
    write!(text, "list version {version}, lines {lines}\n")
}

// The same of the list in force.
fn put_version(text: &mut String, host: &Host) -> Result<(), AllocError>
    ensures { OnOk result (string_bytes text.new ≡ string_bytes text.old ++ list_line host.now) }
{
    let version = host.version();
    let lines = lines(host);
    put_counts(text, version, lines)
}

// The line of a number of the list in force, if it has one.
fn line_in_force(host: &Host, number: usize) -> Option<&Line>
    ensures { option_copied result ≡ line_at (force host.now) number }
{
    match host.list() {
        Some(list) => list.line(number),
        None => None,
    }
}

// Puts a line of the list behind its number, if there is one.
fn put_line(
    alloc: Global,
    text: &mut String,
    number: usize,
    line: Option<&Line>,
) -> Result<(), AllocError>
    ensures { OnOk result (string_bytes text.new ≡ string_bytes text.old ++ numbered_line number (option_copied line.entry)) }
{
    let Some(line) = line else {
        return Ok(());
    };
    let words = line.text(alloc)?;
    let words = words.as_str();
    write!(text, "{number} {words}\n")
}

// Puts the lines of the list.
fn put_lines(alloc: Global, text: &mut String, host: &Host) -> Result<(), AllocError>
    ensures { OnOk result (string_bytes text.new ≡ string_bytes text.old ++ lines_below (force host.now) (length (force host.now))) }
{
    let count = lines(host);
    for place in 0..count {
        put_line(alloc, text, place + 1, line_in_force(host, place + 1))?;
    }
    Ok(())
}

/// Puts the clock, the version of the list and its lines. Err where memory was refused.
pub fn put_head(alloc: Global, text: &mut String, host: &Host) -> Result<(), AllocError>
    ensures { OnOk result (string_bytes text.new ≡ string_bytes text.old ++ head_text host.now) }
{
    put_clock(text, host)?;
    put_version(text, host)?;
    put_lines(alloc, text, host)
}

/// What stands before the first entry: no tick went by, and no list was set. Err where memory was refused.
pub fn start_text(alloc: Global) -> Result<String, AllocError>
    ensures { IfOk result (λ text. string_bytes text ≡ start_text) }
{
    let clock: u64 = 0;
    let mut text = format!(in alloc; "clock {clock}\n")?;
    put_counts(&mut text, 0, 0)?;
    Ok(text)
}
