//! Lines as bytes and as texts.

ghost use Rattle.std.specs.Prelude.{◌≡◌, ◌++◌, ◌∷◌, [], IfOk, OnOk, Some, option_map, string_bytes};
ghost use Rattle.std.specs.Str.Lines.{strip_carriage_return};
ghost use Rattle.rv_input.specs.Coming.{ReadsAs, content, is_run};

use crate::fault::InputFault;
use std::alloc::Global;

/// The line that ends the sections of a script and begins its commands.
pub(crate) const RUN: &[u8] = b"@run";

/// Puts a byte at the end of bytes.
pub(crate) fn keep(bytes: &mut Vec<u8>, byte: u8) -> Result<(), InputFault>
    ensures { IfOk result (λ _. bytes.new.items ≡ bytes.old.items ++ byte ∷ []) }
{
    match bytes.push(byte) {
        Ok(()) => Ok(()),
        Err(_) => Err(InputFault::Memory),
    }
}

/// Puts a line at the end of bytes.
pub(crate) fn keep_line(bytes: &mut Vec<u8>, line: &[u8]) -> Result<(), InputFault>
    ensures { IfOk result (λ _. bytes.new.items ≡ bytes.old.items ++ line.now) }
{
    match bytes.extend_from_slice(line) {
        Ok(()) => Ok(()),
        Err(_) => Err(InputFault::Memory),
    }
}

/// Puts a line at the end of a text, with a line feed.
pub(crate) fn keep_text(text: &mut String, line: &str) -> Result<(), InputFault>
    ensures { OnOk result (string_bytes text.new ≡ string_bytes text.old ++ (line.now ++ 10 ∷ [])) }
{
    if text.push_str(line).is_err() || text.push_str("\n").is_err() {
        return Err(InputFault::Memory);
    }
    Ok(())
}

// A line of one's own.
fn owned(alloc: Global, line: &str) -> Result<Option<String>, InputFault>
    ensures { IfOk result (λ line'. option_map string_bytes line' ≡ Some line.now) }
{
    match String::from_str(alloc, line) {
        Ok(line) => Ok(Some(line)),
        Err(_) => Err(InputFault::Memory),
    }
}

/// A line without the carriage return at its end.
pub(crate) fn stripped(line: &[u8]) -> &[u8]
    ensures { result.now ≡ strip_carriage_return line.now }
{
    let len = line.len();
    if len > 0 && line[len - 1] == b'\r' {
        return &line[..len - 1];
    }
    line
}

// A line without its line feed and a carriage return before that.
fn content(line: &[u8]) -> &[u8]
    ensures { result.now ≡ content line.now }
{
    let len = line.len();
    if len > 0 && line[len - 1] == b'\n' {
        return stripped(&line[..len - 1]);
    }
    line
}

/// Whether a line is `@run`.
pub(crate) fn is_run(line: &[u8]) -> bool
    ensures { result ≡ is_run (content line.now) }
{
    content(line) == RUN
}

/// The text of a line; none where it has no bytes or isn't UTF-8.
pub(crate) fn text_line(alloc: Global, line: &[u8]) -> Result<Option<String>, InputFault>
    ensures { IfOk result (λ text. ReadsAs line.now (option_map string_bytes text)) }
{
    if line.len() == 0 {
        return Ok(None);
    }
    match str::from_utf8(content(line)) {
        Ok(text) => owned(alloc, text),
        Err(_) => Ok(None),
    }
}
