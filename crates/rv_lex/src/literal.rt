//! Whole literals and their values (ISO/IEC 8652:2012, 2.4).

ghost use Rattle.std.specs.Prelude.{◌≡◌, ◌<◌, ◌≤◌, ◌==◌, ◌||◌, nat_lt, length};
ghost use Rattle.std.specs.List.{list_all};
ghost use Rattle.std.specs.Char.{digit_value};
ghost use Rattle.rv_lex.specs.Characters.{is_spaced};
ghost use Rattle.rv_lex.specs.Literals as spec;

/// One more than the greatest value of a literal.
pub(crate) const VALUE_LIMIT: u64 = 2147483648;

// Single underscores between other characters.
#[tactic(auto, unfolding(crate::specs::Characters::is_spaced))]
pub(crate) fn has_single_lines(text: &[u8]) -> bool
    ensures { result ≡ is_spaced text.now }
{
    let mut after_line = true;
    for b in text {
        let is_line = *b == b'_';
        if is_line && after_line {
            return false;
        }
        after_line = is_line;
    }
    !after_line
}

// The value of a digit or letter as a digit; 36 of all else.
fn digit(b: u8) -> u64
    ensures value { result ≡ digit_value b }
    ensures small { result ≤ 36 }
{
    match b {
        b'0'..=b'9' => u64::from(b - b'0'),
        b'a'..=b'z' => u64::from(b - b'a') + 10,
        b'A'..=b'Z' => u64::from(b - b'A') + 10,
        _ => 36,
    }
}

// The number that digits and letters write in a base, which stops growing past the greatest value.
#[tactic(auto, unfolding(crate::specs::Literals::number))]
fn number(base: u64, text: &[u8]) -> u64
    requires { base ≤ 2147483648 }
    ensures value { result ≡ spec.number base text.now }
    ensures small { result ≤ 2147483648 }
{
    let mut value: u64 = 0;
    for b in text {
        if b.is_ascii_alphanumeric() {
            value = (base * value + digit(*b)).min(VALUE_LIMIT);
        }
    }
    value
}

#[tactic(auto, unfolding(crate::specs::Literals::sign_place))]
fn sign_place(text: &[u8]) -> usize
    ensures value { result ≡ spec.sign_place text.now }
    ensures within { result ≤ length text.now }
{
    let mut end = 0;
    while end < text.len() && text[end] != b'#' {
        end += 1;
    }
    end
}

// Digits below the base and underscores alone.
fn are_below(base: u64, text: &[u8]) -> bool
    ensures { result ≡ list_all (λ b. b == 95 || nat_lt (digit_value b) base) text.now }
{
    for b in text {
        if *b != b'_' && digit(*b) >= base {
            return false;
        }
    }
    true
}

#[tactic(auto, unfolding(crate::specs::Literals::are_digits))]
fn are_digits(base: u64, text: &[u8]) -> bool
    ensures { result ≡ spec.are_digits base text.now }
{
    has_single_lines(text) && are_below(base, text)
}

#[tactic(auto, unfolding(crate::specs::Literals::is_base))]
fn is_base(text: &[u8]) -> bool
    ensures { result ≡ spec.is_base text.now }
{
    are_digits(10, text) && 2 <= number(10, text) && number(10, text) <= 16
}

#[tactic(auto, unfolding(crate::specs::Literals::is_signed_end))]
fn is_signed_end(base: u64, text: &[u8]) -> bool
    ensures { result ≡ spec.is_signed_end base text.now }
{
    match text {
        [] => false,
        [digits @ .., last] => *last == b'#' && are_digits(base, digits),
    }
}

/// The value of a literal's text, plain or based; 2147483648 where it is greater.
#[tactic(auto, unfolding(crate::specs::Literals::value_of))]
pub(crate) fn value_of(text: &[u8]) -> u64
    ensures value { result ≡ spec.value_of text.now }
    ensures small { result ≤ 2147483648 }
{
    let sign = sign_place(text);
    if sign == text.len() {
        number(10, text)
    } else {
        let (base, digits) = text.split_at(sign);
        number(number(10, base), digits)
    }
}

/// Whether the whole text is one literal of at most 2147483647.
#[tactic(auto, unfolding(crate::specs::Literals::is_literal))]
pub(crate) fn is_literal(text: &[u8]) -> bool
    ensures { result ≡ spec.is_literal text.now }
{
    let sign = sign_place(text);
    if value_of(text) >= VALUE_LIMIT {
        return false;
    }
    if sign == text.len() {
        are_digits(10, text)
    } else {
        let base = &text[..sign];
        is_base(base) && is_signed_end(number(10, base), &text[sign + 1..])
    }
}
