//! Identifiers and names of objects.

ghost use Rattle.std.specs.Prelude.{◌≡◌, true, option_map};
ghost use Rattle.rv_text.specs.Names.{is_spelled, is_identifier, dotted, dotted_parts, is_same_name};

/// The most characters of an identifier; the limit is our own.
pub const MOST_CHARACTERS: usize = 64;

// Whether letters and digits stand there, with single underscores between them.
fn is_spelled(name: &[u8]) -> bool
    ensures { result ≡ is_spelled true name.now }
{
    let mut gap = true;
    for byte in name {
        if byte.is_ascii_alphanumeric() {
            gap = false;
        } else if *byte == b'_' && !gap {
            gap = true;
        } else {
            return false;
        }
    }
    !gap
}

/// Whether a word is an identifier: a letter, then letters and digits with single underscores
/// between them, at most 64 characters (ISO/IEC 8652:2012, 2.3; the limit is our own).
pub fn is_identifier(word: &str) -> bool
    ensures { result ≡ is_identifier word.now }
{
    let bytes = word.as_bytes();
    if bytes.len() > MOST_CHARACTERS {
        return false;
    }
    match bytes {
        [] => false,
        [first, ..] => first.is_ascii_alphabetic() && is_spelled(bytes),
    }
}

/// The two identifiers of `Unit.Object`, `Unit.Task` and the like.
pub fn dotted_parts(word: &str) -> Option<(&str, &str)>
    ensures { option_map (λ p. (p.0.now, p.1.now)) result ≡ dotted_parts word.now }
{
    let Some((unit, name)) = word.split_once('.') else {
        return None;
    };
    if !is_identifier(unit) {
        return None;
    }
    if !is_identifier(name) {
        return None;
    }
    Some((unit, name))
}

/// Whether two names are the same: they may differ in case (ISO/IEC 8652:2012, 2.3).
pub fn is_same_name(name: &str, other: &str) -> bool
    ensures { result ≡ is_same_name name.now other.now }
{
    name.eq_ignore_ascii_case(other)
}

/// Whether a word is `unit.name`; it may differ in case.
pub fn is_dotted_name(word: &str, unit: &str, name: &str) -> bool
    ensures { result ≡ is_same_name word.now (dotted unit.now name.now) }
{
    let bytes = word.as_bytes();
    if bytes.len() <= unit.len() {
        return false;
    }
    let (front, back) = bytes.split_at(unit.len());
    if !front.eq_ignore_ascii_case(unit.as_bytes()) {
        return false;
    }
    if back[0] != b'.' {
        return false;
    }
    let (_, behind) = back.split_at(1);
    behind.eq_ignore_ascii_case(name.as_bytes())
}
