//! The sections of a script. A line that begins with `@` opens one, which goes on to the next such
//! line; its text begins behind that line's line feed.

ghost use Rattle.std.specs.Prelude.{◌≡◌, ◌+◌, ◌<◌, ◌≤◌, ◌^◌, ◌∷◌, [], length, IfNone, IfSome, true};
ghost use Rattle.rv_text.specs.Sections.{front_of, sections_of, lines_ended, front_len};

use crate::lines::next_line;
use std::marker::Model;

/// One section of a script.
#[derive(Clone, Copy)]
pub struct Section<'a> {
    /// The number of the script's line that opens it, from 1.
    pub line: usize,
    /// That line, from its `@` on, without its line feed and a carriage return before that.
    pub opening: &'a str,
    /// What stands behind that line, up to the next section or the script's end.
    pub text: &'a str,
}

/// The sections that are left of a script, in order.
#[derive(Drop)]
pub struct Sections<'a> {
    // The number of the script's line that opens the first of them, from 1.
    line: usize,
    // What is left of the script: empty, or it begins with `@`.
    text: &'a str,
}

impl<'a> Model for Sections<'a> {
    ghost use Rattle.std.specs.Prelude.{◌≡◌, ◌+◌, ◌≤◌, ◌^◌, List, length, true};
    ghost use Rattle.rv_text.specs.Sections.{SectionText, cut, sections_from, front_len};

    ghost Value = { List SectionText };

    ghost view = { λ s. sections_from s.line (cut true s.text.now).parts };

    ghost invariant = { λ s. (front_len true s.text.now ≡ 0) × (s.line + length s.text.now ≤ 2 ^ 63) };
}

// How many bytes come before the next line that begins with `@`.
fn front_len(start: bool, text: &[u8]) -> usize
    ensures value { result ≡ front_len start text.now }
    ensures within { result ≤ length text.now }
{
    let mut start = start;
    for (i, byte) in text.iter().enumerate() {
        if start && *byte == b'@' {
            return i;
        }
        start = *byte == b'\n';
    }
    text.len()
}

// How many lines end in a text.
fn lines_ended(text: &[u8]) -> usize
    ensures value { result ≡ lines_ended text.now }
    ensures within { result ≤ length text.now }
{
    text.iter().filter(|byte| **byte == b'\n').count()
}

/// What stands before the first section of a script, and its sections. The script must be shorter
/// than 2^63 bytes.
pub fn open_script(script: &str) -> (&str, Sections<'_>)
    requires { length script.now < 2 ^ 63 }
    ensures front { result.0.now ≡ front_of script.now }
    ensures sections { result.1 ≡ sections_of script.now }
{
    let (front, text) = script.split_at(front_len(true, script.as_bytes()));
    let line = 1 + lines_ended(front.as_bytes());
    (front, Sections { line, text })
}

impl<'a> Sections<'a> {
    /// Takes the first section, if there is one.
    pub fn next_section(&mut self) -> Option<Section<'a>>
        ensures none { IfNone result ((self.old ≡ []) × (self.new ≡ [])) }
        ensures first { IfSome result (λ s. self.old ≡ record { line = s.line; opening = s.opening.now; text = s.text.now } ∷ self.new) }
    {
        let whole = self.text;
        if whole.len() == 0 {
            return None;
        }
        let (_, behind) = whole.as_bytes().split_at(1);
        let (part, rest) = whole.split_at(front_len(false, behind) + 1);
        let Some((opening, text)) = next_line(part) else {
            return None;
        };
        let line = self.line;
        self.line += lines_ended(part.as_bytes());
        self.text = rest;
        Some(Section {
            line,
            opening,
            text,
        })
    }
}
