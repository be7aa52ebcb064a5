//! What the sections of a script open.

ghost use Rattle.std.specs.Prelude.{◌≡◌, ◌<◌, ◌^◌, length, Ok, Err, IfOk, IfErr, option_map};
ghost use Rattle.std.specs.Str.Lines.{lines};
ghost use Rattle.rv_text.specs.Sections.{sections_of};
ghost use Rattle.rv_script.specs.Openings.{opening_of, first_meant, opened, parted, AreNumbered};

use rv_text::{Section, Sections, has_words, next_line, open_script};

/// What a section holds.
#[derive(Clone, Copy, Debug, Drop, PartialEq, Eq)]
pub enum Opening {
    /// `@host.toml`: settings, which may come first.
    Settings,
    /// `@unit`: a unit text, a package and its body.
    UnitText,
    /// `@shape`: the shape of a unit.
    Shape,
    /// `@list`: an access list.
    AccessList,
    /// `@steps`: steps, one a line.
    Steps,
    /// `@journal`: a journal.
    Journal,
    /// `@run`: commands, one a line.
    Run,
}

/// What a line opens. Nothing may stand behind the word, not even a blank.
pub fn opening_of(line: &str) -> Option<Opening>
    ensures { result ≡ opening_of line.now }
{
    if line == "@host.toml" {
        return Some(Opening::Settings);
    }
    if line == "@unit" {
        return Some(Opening::UnitText);
    }
    if line == "@shape" {
        return Some(Opening::Shape);
    }
    if line == "@list" {
        return Some(Opening::AccessList);
    }
    if line == "@steps" {
        return Some(Opening::Steps);
    }
    if line == "@journal" {
        return Some(Opening::Journal);
    }
    if line == "@run" {
        return Some(Opening::Run);
    }
    None
}

// The number of the first line that isn't blank, of what stands before the first section.
fn first_meant(front: &str) -> Option<usize>
    requires { length front.now < 2 ^ 63 }
    ensures { result ≡ first_meant 1 (lines front.now) }
{
    let mut rest = front;
    let mut number = 1;
    while let Some((line, after)) = next_line(rest) {
        if has_words(line) {
            return Some(number);
        }
        number += 1;
        rest = after;
    }
    None
}

/// A script that is opened.
#[derive(Drop)]
pub struct Opened<'a> {
    /// Its first section, where that holds settings.
    pub settings: Option<Section<'a>>,
    /// The other sections.
    pub sections: Sections<'a>,
}

// The settings of a script, where its first section holds some, and the sections behind.
fn parted(script: &str) -> Opened<'_>
    requires { length script.now < 2 ^ 63 }
    ensures { record {
      settings = option_map (λ s. record { line = s.line; opening = s.opening.now; text = s.text.now }) result.settings;
      sections = result.sections;
    } ≡ parted (sections_of script.now) }
{
    let (_, mut behind) = open_script(script);
    if let Some(section) = behind.next_section() {
        match opening_of(section.opening) {
            Some(Opening::Settings) => {
                return Opened {
                    settings: Some(section),
                    sections: behind,
                };
            }
            _ => {}
        }
    }
    let (_, sections) = open_script(script);
    Opened {
        settings: None,
        sections,
    }
}

/// Opens a script, which must be shorter than 2^63 bytes. Where text stands before its first section, the error is the number of that line.
pub fn open(script: &str) -> Result<Opened<'_>, usize>
    requires { length script.now < 2 ^ 63 }
    ensures ok { IfOk result (λ o. opened script.now ≡ Ok (record {
      settings = option_map (λ s. record { line = s.line; opening = s.opening.now; text = s.text.now }) o.settings;
      sections = o.sections;
    })) }
    ensures numbered { IfOk result (λ o. AreNumbered o.sections) }
    ensures err { IfErr result (λ line. opened script.now ≡ Err line) }
{
    let (front, _) = open_script(script);
    match first_meant(front) {
        Some(line) => Err(line),
        None => Ok(parted(script)),
    }
}
