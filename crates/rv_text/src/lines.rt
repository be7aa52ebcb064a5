//! The lines of a text.

ghost use Rattle.std.specs.Prelude.{◌≡◌, ◌<◌, ◌∷◌, [], length, IfNone, IfSome, MatchOption};
ghost use Rattle.std.specs.List.{after_first};
ghost use Rattle.std.specs.Str.Lines.{lines, strip_carriage_return};
ghost use Rattle.rv_text.specs.Sections.{is_line_feed};

/// A line without the carriage return at its end, if it has one.
pub fn without_return(line: &str) -> &str
    ensures { result.now ≡ strip_carriage_return line.now }
{
    let len = line.len();
    if len > 0 && line.as_bytes()[len - 1] == b'\r' {
        let (front, _) = line.split_at(len - 1);
        return front;
    }
    line
}

/// The first line of a text, without its line feed and a carriage return before that, and what
/// stands behind it. A text that ends in a line feed has no empty line behind it.
pub fn next_line(text: &str) -> Option<(&str, &str)>
    ensures lines { MatchOption result (lines text.now ≡ []) (λ p. lines text.now ≡ p.0.now ∷ lines p.1.now) }
    ensures none { IfNone result (length text.now ≡ 0) }
    ensures behind { IfSome result (λ p. p.1.now ≡ after_first is_line_feed text.now) }
    ensures shorter { IfSome result (λ p. length p.1.now < length text.now) }
{
    if text.len() == 0 {
        return None;
    }
    match text.split_once('\n') {
        Some((line, rest)) => Some((without_return(line), rest)),
        None => Some((text, "")),
    }
}
