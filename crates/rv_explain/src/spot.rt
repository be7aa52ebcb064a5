//! Where in the script a place of a part's text stands.

ghost use Rattle.std.specs.Prelude.{◌≡◌, ◌+◌, ◌≤◌, ◌^◌, length, count_by, IfSome};
ghost use Rattle.rv_script.specs.UnitTexts.{without_returns};
ghost use Rattle.rv_fault.specs.Parts.{section_of};
ghost use Rattle.rv_explain.specs.Spots.{IsLine, StandsAt, begins_character, column_of};

use rv_fault::Part;
use rv_text::next_line;

/// A place of a script: a line, and a byte of it.
#[derive(Clone, Copy)]
pub struct Spot<'a> {
    /// The number of the line, from 1.
    pub number: usize,
    /// The line, without its line feed and a carriage return before that.
    pub line: &'a str,
    /// How many bytes of the line stand before the place.
    pub offset: usize,
}

// Whether a byte begins a character of UTF-8.
fn begins_character(byte: u8) -> bool
    ensures { result ≡ begins_character byte }
{
    byte < 128 || byte >= 192
}

// How many characters begin among bytes.
fn characters(bytes: &[u8]) -> usize
    ensures { result ≡ count_by begins_character bytes.now }
{
    bytes.iter().filter(|byte| begins_character(**byte)).count()
}

impl<'a> Spot<'a> {
    /// Another place of its line.
    pub fn at(&self, offset: usize) -> Spot<'a>
        ensures { (result.number ≡ self.now.number) × (result.line.now ≡ self.now.line.now) × (result.offset ≡ offset) }
    {
        Spot {
            number: self.number,
            line: self.line,
            offset,
        }
    }

    #[tactic(auto, using(std::proofs::lemmas::List::take_all))]
    /// The column of the place, in characters from 1. A tab is one character.
    pub fn column(&self) -> usize
        ensures { result ≡ column_of self.now.line.now self.now.offset }
    {
        let bytes = self.line.as_bytes();
        if self.offset > bytes.len() {
            return 1 + characters(bytes);
        }
        1 + characters(&bytes[..self.offset])
    }
}

/// Where in the script a byte of a part's text stands; bytes count from 0, without carriage returns before line feeds. A
/// place behind the last line feed is that at the end of the last line, which is the part's opening where there is no
/// other.
pub fn spot_of<'a>(part: &Part<'a>, at: usize) -> Spot<'a>
    ensures { at ≤ length (without_returns part.now.text.now) → StandsAt (section_of part.now) at result.number result.line.now result.offset }
{
    let mut spot = Spot {
        number: part.line,
        line: part.heading,
        offset: part.heading.len(),
    };
    let mut rest = part.text;
    let mut left = at;
    'each: while let Some((line, behind)) = next_line(rest) {
        let number = spot.number + 1;
        if left <= line.len() {
            return Spot {
                number,
                line,
                offset: left,
            };
        }
        left -= line.len() + 1;
        spot = Spot {
            number,
            line,
            offset: line.len(),
        };
        rest = behind;
    }
    spot
}

// How many blanks stand before the first word of a line.
fn blanks_before(line: &str) -> usize
    ensures { result ≤ length line.now }
{
    for (i, byte) in line.as_bytes().iter().enumerate() {
        if *byte != b' ' && *byte != b'\t' {
            return i;
        }
    }
    line.len()
}

/// The line of this number of a script, from 1, at its first word.
pub fn line_spot(script: &str, number: usize) -> Option<Spot<'_>>
    ensures { IfSome result (λ spot. IsLine script.now number spot.line.now × (spot.number ≡ number)) }
{
    let mut rest = script;
    let mut next = 1;
    'each: while let Some((line, behind)) = next_line(rest) {
        if next == number {
            return Some(Spot {
                number,
                line,
                offset: blanks_before(line),
            });
        }
        next += 1;
        rest = behind;
    }
    None
}
