//! What of an input has come whole: its sections, or its next command, with the unit text behind `load`.

ghost use Rattle.std.specs.Prelude.{◌≡◌, ◌⊎◌, ◌∷◌, ◌++◌, ◌<◌, ℕ, List, length, true, IfSome};
ghost use Rattle.std.specs.List.{position_or_len};
ghost use Rattle.std.specs.Str.{IsUtf8};
ghost use Rattle.std.specs.Str.Lines.{strip_carriage_return};
ghost use Rattle.rv_text.specs.Sections.{is_line_feed};
ghost use Rattle.rv_input.specs.Coming.{is_end, is_run, most_bytes};
ghost use Rattle.rv_input.specs.Whole.{BeginWhole, EndsText, HasCommand, HasSections, IsAtLine, IsLoadLine, IsPast, OneIs, whole_lines};

use crate::input::{Input, MOST_BYTES};
use crate::lines::{RUN, stripped};
use rv_text::{next_word, without_return};

// The line that ends a unit text.
const END: &[u8] = b"@end";

// Where the first line feed stands, or the length.
#[tactic(auto, using(std::proofs::lemmas::List::Sums::position_or_len_is))]
fn feed_at(bytes: &[u8]) -> usize
    ensures { result ≡ position_or_len is_line_feed bytes.now }
{
    for (i, byte) in bytes.iter().enumerate() {
        if *byte == b'\n' {
            return i;
        }
    }
    bytes.len()
}

// The first line that has come whole, without its line feed, and what stands behind that; none where it hasn't come.
fn first_line(bytes: &[u8]) -> Option<(&[u8], &[u8])>
    ensures lines { IfSome result (λ p. whole_lines bytes.now ≡ p.0.now ∷ whole_lines p.1.now) }
    ensures whole { IfSome result (λ p. bytes.now ≡ p.0.now ++ 10 ∷ p.1.now) }
    ensures shorter { IfSome result (λ p. length p.1.now < length bytes.now) }
{
    let at = feed_at(bytes);
    if at >= bytes.len() {
        return None;
    }
    let (line, _) = bytes.split_at(at);
    let (_, behind) = bytes.split_at(at + 1);
    Some((line, behind))
}

// Whether a line is `@run`.
fn is_run_line(line: &[u8]) -> bool
    ensures { result ≡ is_run (strip_carriage_return line.now) }
{
    stripped(line) == RUN
}

// Whether a line is `@end`.
fn is_end_line(line: &[u8]) -> bool
    ensures { result ≡ is_end (strip_carriage_return line.now) }
{
    stripped(line) == END
}

// Whether a line is the command `load`: its unit text follows.
fn is_load(line: &[u8]) -> bool
    ensures { IsUtf8 line.now → IsLoadLine line.now → result ≡ true }
{
    let Ok(line) = str::from_utf8(line) else {
        return false;
    };
    match next_word(without_return(line)) {
        Some((key, rest)) => key == "load" && next_word(rest).is_none(),
        None => false,
    }
}

// Where a unit text ends.
#[derive(Clone, Copy, Drop)]
struct TextEnd {
    // How many bytes there are with the line that ends it.
    behind: usize,
    // Whether that is `@end`; else it isn't UTF-8, and is as the end of input.
    is_whole: bool,
}

// Whether a line ends a unit text, and is `@end`; none where it ends none.
fn end_of(line: &[u8]) -> Option<bool>
    ensures { IfSome result (λ _. EndsText line.now) }
{
    if is_end_line(line) {
        return Some(true);
    }
    match str::from_utf8(line) {
        Ok(_) => None,
        Err(_) => Some(false),
    }
}

// Where the unit text ends that bytes begin with; none where its end hasn't come.
fn text_end(bytes: &[u8]) -> Option<TextEnd>
    ensures { IfSome result (λ _. OneIs EndsText (whole_lines bytes.now)) }
{
    let mut rest = bytes;
    while let Some((line, behind)) = first_line(rest) {
        if let Some(is_whole) = end_of(line) {
            return Some(TextEnd {
                behind: bytes.len().saturating_sub(behind.len()),
                is_whole,
            });
        }
        rest = behind;
    }
    None
}

/// The unit text that bytes begin with, with its line `@end`; nothing where that hasn't come.
pub fn load_bytes(bytes: &[u8]) -> &[u8] {
    match text_end(bytes) {
        Some(end) if end.is_whole => bytes.get(..end.behind).unwrap_or(&[]),
        _ => &[],
    }
}

// Whether an input went past its greatest length.
fn is_past(input: &Input) -> bool
    ensures { result ≡ true → IsPast input.now }
{
    input.ahead().len() > MOST_BYTES.saturating_sub(input.given())
}

// Whether a command line that has come has behind it what it needs: of `load` its unit text.
#[tactic(auto, using(crate::proofs::WholeLines::none_load))]
fn is_followed(line: &[u8], behind: &[u8]) -> bool
    ensures { result ≡ true → IsUtf8 line.now → IsLoadLine line.now → OneIs EndsText (whole_lines behind.now) }
{
    if !is_load(line) {
        return true;
    }
    match text_end(behind) {
        Some(_) => true,
        None => false,
    }
}

// Whether bytes begin with a command that has come whole.
#[tactic(auto, using(crate::proofs::WholeLines::begins_by))]
fn begins_whole(bytes: &[u8]) -> bool
    ensures { result ≡ true → BeginWhole (whole_lines bytes.now) }
{
    match first_line(bytes) {
        Some((line, behind)) => is_followed(line, behind),
        None => false,
    }
}

/// Whether the next command has come whole, or no more is waited for: the input went past its greatest length, or a unit
/// text has a line that is as the end of input.
pub fn has_command(input: &Input) -> bool
    ensures { result ≡ true → HasCommand input.now }
{
    begins_whole(input.ahead()) || is_past(input)
}

/// The same, where so many bytes had come before and no command: without a line feed more there is none.
pub fn has_command_now(input: &Input, before: usize) -> bool
    ensures { result ≡ true → HasCommand input.now }
{
    match input.ahead().get(before..) {
        Some(more) => (first_line(more).is_some() || is_past(input)) && has_command(input),
        None => has_command(input),
    }
}

/// How far an input that comes piece by piece was looked at for the line `@run`.
#[derive(Drop)]
pub struct Looked {
    // Where the line begins that hadn't come whole.
    line: usize,
    // How many bytes had come.
    seen: usize,
}

impl Looked {
    /// Nothing was looked at yet.
    #[tactic(auto, using(crate::proofs::WholeLines::at_start))]
    pub fn new() -> Looked
        ensures { (bytes : List ℕ) → IsAtLine result bytes }
    {
        Looked { line: 0, seen: 0 }
    }

    // Looks at the lines that came whole since, for `@run`.
    fn look_on(&mut self, bytes: &[u8]) -> bool
        requires { IsAtLine self.now bytes.now }
        ensures begins { IsAtLine self.new bytes.now }
        ensures found { result ≡ true → HasSections bytes.now }
    {
        let Some(left) = bytes.get(self.line..) else {
            return false;
        };
        let mut rest = left;
        while let Some((line, behind)) = first_line(rest) {
            if is_run_line(line) {
                return true;
            }
            rest = behind;
        }
        self.line = bytes.len() - rest.len();
        false
    }

    /// Whether the sections have come whole, with the line `@run`, or no more is waited for: the input went past its
    /// greatest length. What was looked at before isn't looked at again; more of the input may have come behind it.
    pub fn has_sections(&mut self, input: &Input) -> bool
        requires { IsAtLine self.now input.now.ahead }
        ensures begins { IsAtLine self.new input.now.ahead }
        ensures found { result ≡ true → HasSections input.now.ahead ⊎ IsPast input.now }
    {
        let seen = self.seen;
        let bytes = input.ahead();
        self.seen = bytes.len();
        let is_found = match bytes.get(seen..) {
            Some(more) if first_line(more).is_some() => self.look_on(bytes),
            _ => false,
        };
        is_found || is_past(input)
    }
}
