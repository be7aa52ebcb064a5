//! The words of a line.

ghost use Rattle.std.specs.Prelude.{◌≡◌, ◌<◌, ◌∷◌, [], length, IfSome, MatchOption};
ghost use Rattle.std.specs.List.{position_or_len};
ghost use Rattle.rv_text.specs.Words.{is_blank, words, is_some_word};

// Whether a byte is a space or a tab.
fn is_blank(byte: u8) -> bool
    ensures { result ≡ is_blank byte }
{
    byte == b' ' || byte == b'\t'
}

// Where the first blank stands, or the length.
#[tactic(auto, using(std::proofs::lemmas::List::Sums::position_or_len_is))]
fn blank_at(text: &str) -> usize
    ensures { result ≡ position_or_len is_blank text.now }
{
    for (i, byte) in text.as_bytes().iter().enumerate() {
        if is_blank(*byte) {
            return i;
        }
    }
    text.len()
}

/// The first word of a line, and what stands behind it. Words stand between spaces or tabs.
pub fn next_word(text: &str) -> Option<(&str, &str)>
    ensures words { MatchOption result (words text.now ≡ []) (λ p. words text.now ≡ p.0.now ∷ words p.1.now) }
    ensures shorter { IfSome result (λ p. length p.1.now < length text.now) }
{
    let mut rest = text;
    while rest.len() > 0 {
        let at = blank_at(rest);
        if at >= rest.len() {
            return Some((rest, ""));
        }
        let (word, _) = rest.split_at(at);
        let (_, behind) = rest.split_at(at + 1);
        if at > 0 {
            return Some((word, behind));
        }
        rest = behind;
    }
    None
}

/// Whether a line has a word. One that has none is blank.
pub fn has_words(line: &str) -> bool
    ensures { result ≡ is_some_word (words line.now) }
{
    match next_word(line) {
        Some(_) => true,
        None => false,
    }
}
