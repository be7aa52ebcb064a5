//! Texts of others as people are shown them: no character in one may move, hide or turn round what stands beside it.
#![tactic(auto)]

ghost use Rattle.std.specs.Prelude.{◌≡◌};
ghost use Rattle.rv_shown.specs.Shown.{is_plain};

use std::fmt;

// Whether a number is one of these and those between.
fn is_between(low: u32, code: u32, high: u32) -> bool
    ensures { result ≡ Rattle.rv_shown.specs.Shown.is_between low code high }
{
    low <= code && code <= high
}

// Whether the character of a code moves a cursor or rings a bell: all controls but the tab (ECMA-48).
fn is_control(code: u32) -> bool
    ensures { result ≡ Rattle.rv_shown.specs.Shown.is_control code }
{
    code != 9 && code < 32 || is_between(127, code, 159)
}

// Whether the character of a code sets a direction, or takes no room of its own (Unicode, general category Cf, and the separators
// of lines).
fn is_hidden(code: u32) -> bool
    ensures { result ≡ Rattle.rv_shown.specs.Shown.is_hidden code }
{
    code == 173
        || code == 1564
        || code == 6158
        || is_between(8203, code, 8207)
        || is_between(8232, code, 8238)
        || is_between(8288, code, 8303)
        || code == 65279
        || is_between(65529, code, 65531)
        || is_between(917504, code, 917631)
}

/// Whether a character is shown as it stands: a tab is, and of the others all but controls, what sets a direction, and what takes no
/// room of its own.
pub fn is_plain(character: char) -> bool
    ensures { result ≡ is_plain character }
{
    let code = character as u32;
    !is_control(code) && !is_hidden(code)
}

/// How many characters a character is shown as.
pub fn width(character: char) -> usize {
    if is_plain(character) {
        return 1;
    }
    let mut left = character as u32;
    for digits in 1..8usize {
        left = left / 16;
        if left == 0 {
            return digits + 4;
        }
    }
    12
}

/// Writes a character as it is shown: as it stands, or by its number, as `\u{1b}`.
pub fn put_shown<W: fmt::Write>(f: &mut W, character: char) -> fmt::Result {
    if is_plain(character) {
        return f.write_char(character);
    }
    let code = character as u32;
    write!(f, "\\u{{{code:x}}}")
}

/// A text, as it is shown: each character that isn't plain by its number, as `\u{1b}`.
#[derive(Clone, Copy)]
pub struct Shown<'a> {
    pub text: &'a str,
}

impl fmt::Display for Shown<'_> {
    fn fmt<W: fmt::Write>(&self, f: &mut fmt::Formatter<W>) -> fmt::Result {
        for character in self.text.chars() {
            put_shown(f, character)?;
        }
        Ok(())
    }
}

#[cfg(test)]
mod tests {
    use crate::{Shown, width};

    #[test]
    fn shows_controls_and_directions_by_number(rt: HostRuntime) {
        let alloc = rt.alloc();
        let text = Shown {
            text: "a\u{1b}[31m\t\u{202e}b",
        };
        let shown = format!(in alloc; "{text}").unwrap_or(String::new(alloc));
        assert_eq!(rt; shown.as_str(), "a\\u{1b}[31m\t\\u{202e}b");
        assert_eq!(rt; width('\u{202e}'), 8);
        assert_eq!(rt; width('b'), 1);
    }
}
