//! Names and numbers of unit texts that are none: what stands at the front of a text is judged as its reader judges it (2.3, 2.4).

ghost use Rattle.std.specs.Prelude.{◌≡◌, ◌≤◌, length, option_map, slice_index, IfSome};
ghost use Rattle.std.specs.Result.{result_err};
ghost use Rattle.std.specs.Char.{digit_value};
ghost use Rattle.rv_lex.specs.Characters as characters;
ghost use Rattle.rv_lex.specs.Literals as literals;
ghost use Rattle.rv_lex.specs.Front as front;
ghost use Rattle.rv_misread.specs.Words.{NameSays, NumberSays, name_fault, number_fault, are_below};

const MAX_NAME: usize = 64;

// One more than the greatest number.
const LIMIT: u64 = 2_147_483_648;

/// Why a letter begins no name.
#[derive(Clone, Copy)]
pub enum NameReason {
    /// An underscore isn't between two letters or digits.
    StrayUnderscore,
    /// There are over 64 characters.
    TooLong,
}

/// Why a digit begins no number.
#[derive(Clone, Copy)]
pub enum NumberReason {
    /// A number sign follows, but what stands there is no based literal.
    NotBased,
    /// The point and a digit of a fraction follow.
    Fraction,
    /// An underscore isn't between two digits.
    StrayUnderscore,
    /// It is digits alone, so its value is past the greatest number.
    TooGreat,
    /// The first letter among the digits is that of an exponent.
    Exponent,
    /// A letter stands among the digits.
    Letter,
}

fn is_word_byte(byte: u8) -> bool
    ensures { result ≡ characters.is_word_byte byte }
{
    byte.is_ascii_alphanumeric() || byte == b'_'
}

// The byte there, or 0 past the end.
fn byte_at(text: &[u8], at: usize) -> u8
    ensures { result ≡ slice_index text.now at }
{
    if at < text.len() { text[at] } else { 0 }
}

// How many letters, digits and underscores stand at the front.
fn run(text: &[u8]) -> usize
    ensures value { result ≡ characters.run text.now }
    ensures within { result ≤ length text.now }
{
    let mut end = 0;
    while end < text.len() && is_word_byte(text[end]) {
        end += 1;
    }
    end
}

// Whether there are single underscores between other characters.
#[tactic(auto, unfolding(rv_lex::specs::Characters::is_spaced))]
fn has_single_lines(text: &[u8]) -> bool
    ensures { result ≡ characters.is_spaced text.now }
{
    let mut after_line = true;
    for byte in text {
        let is_line = *byte == b'_';
        if is_line && after_line {
            return false;
        }
        after_line = is_line;
    }
    !after_line
}

/// Why a text begins with no name, as `tokens` tells of one that begins with a letter.
#[tactic(auto, unfolding(rv_lex::specs::Front::identifier))]
pub fn name_reason(text: &[u8]) -> Option<NameReason>
    ensures agrees { option_map name_fault result ≡ result_err (front.identifier text.now) }
    // What it says is so.
    ensures says { IfSome result (λ reason. NameSays reason text.now) }
{
    let len = run(text);
    if !has_single_lines(&text[..len]) {
        return Some(NameReason::StrayUnderscore);
    }
    if len > MAX_NAME {
        return Some(NameReason::TooLong);
    }
    None
}

// The value of a digit or letter as a digit; 36 of all else.
fn digit(byte: u8) -> u64
    ensures value { result ≡ digit_value byte }
    ensures small { result ≤ 36 }
{
    match byte {
        b'0'..=b'9' => u64::from(byte - b'0'),
        b'a'..=b'z' => u64::from(byte - b'a') + 10,
        b'A'..=b'Z' => u64::from(byte - b'A') + 10,
        _ => 36,
    }
}

// The number that digits and letters write in a base, which stops growing past the greatest.
#[tactic(auto, unfolding(rv_lex::specs::Literals::number))]
fn number(base: u64, text: &[u8]) -> u64
    requires { base ≤ 2147483648 }
    ensures value { result ≡ literals.number base text.now }
    ensures small { result ≤ 2147483648 }
{
    let mut value: u64 = 0;
    for byte in text {
        if byte.is_ascii_alphanumeric() {
            value = (base * value + digit(*byte)).min(LIMIT);
        }
    }
    value
}

#[tactic(auto, unfolding(rv_lex::specs::Literals::sign_place))]
fn sign_place(text: &[u8]) -> usize
    ensures value { result ≡ literals.sign_place text.now }
    ensures within { result ≤ length text.now }
{
    let mut end = 0;
    while end < text.len() && text[end] != b'#' {
        end += 1;
    }
    end
}

// Whether digits below the base and underscores stand there alone.
fn are_below(base: u64, text: &[u8]) -> bool
    ensures { result ≡ are_below base text.now }
{
    for byte in text {
        if *byte != b'_' && digit(*byte) >= base {
            return false;
        }
    }
    true
}

#[tactic(auto, unfolding(rv_lex::specs::Literals::are_digits))]
fn are_digits(base: u64, text: &[u8]) -> bool
    ensures { result ≡ literals.are_digits base text.now }
{
    has_single_lines(text) && are_below(base, text)
}

#[tactic(auto, unfolding(rv_lex::specs::Literals::is_base))]
fn is_base(text: &[u8]) -> bool
    ensures { result ≡ literals.is_base text.now }
{
    are_digits(10, text) && 2 <= number(10, text) && number(10, text) <= 16
}

#[tactic(auto, unfolding(rv_lex::specs::Literals::is_signed_end))]
fn is_signed_end(base: u64, text: &[u8]) -> bool
    ensures { result ≡ literals.is_signed_end base text.now }
{
    match text {
        [] => false,
        [digits @ .., last] => *last == b'#' && are_digits(base, digits),
    }
}

#[tactic(auto, unfolding(rv_lex::specs::Literals::value_of))]
fn value_of(text: &[u8]) -> u64
    ensures { result ≡ literals.value_of text.now }
{
    let sign = sign_place(text);
    if sign == text.len() {
        number(10, text)
    } else {
        let (base, digits) = text.split_at(sign);
        number(number(10, base), digits)
    }
}

// Whether the whole text is one number, plain or based.
#[tactic(auto, unfolding(rv_lex::specs::Literals::is_literal))]
fn is_literal(text: &[u8]) -> bool
    ensures { result ≡ literals.is_literal text.now }
{
    let sign = sign_place(text);
    if value_of(text) >= LIMIT {
        return false;
    }
    if sign == text.len() {
        are_digits(10, text)
    } else {
        let base = &text[..sign];
        is_base(base) && is_signed_end(number(10, base), &text[sign + 1..])
    }
}

// How far the characters of a number go, with the second part of a based one.
#[tactic(auto, unfolding(rv_lex::specs::Front::literal_len))]
fn literal_len(text: &[u8]) -> usize
    ensures value { result ≡ front.literal_len text.now }
    ensures within { result ≤ length text.now }
{
    let len = run(text);
    if byte_at(text, len) != b'#' {
        return len;
    }
    let end = len + 1 + run(&text[len + 1..]);
    if byte_at(text, end) == b'#' {
        end + 1
    } else {
        end
    }
}

// A letter, or the point and digit of a fraction.
fn goes_on(text: &[u8]) -> bool
    ensures { result ≡ front.goes_on text.now }
{
    byte_at(text, 0).is_ascii_alphabetic()
        || (byte_at(text, 0) == b'.' && byte_at(text, 1).is_ascii_digit())
}

// Whether the first byte that is neither a digit nor an underscore is that of an exponent.
fn has_exponent(word: &[u8]) -> bool {
    for byte in word {
        if !byte.is_ascii_digit() && *byte != b'_' {
            return *byte == b'e' || *byte == b'E';
        }
    }
    false
}

// What is wrong with a text that begins with no number.
fn reason_of(text: &[u8]) -> NumberReason
    ensures { NumberSays result text.now }
{
    let len = run(text);
    let word = &text[..len];
    let next = byte_at(text, len);
    if next == b'#' {
        return NumberReason::NotBased;
    }
    if next == b'.' && byte_at(text, len + 1).is_ascii_digit() {
        return NumberReason::Fraction;
    }
    if !has_single_lines(word) {
        return NumberReason::StrayUnderscore;
    }
    if are_below(10, word) {
        return NumberReason::TooGreat;
    }
    if has_exponent(word) {
        NumberReason::Exponent
    } else {
        NumberReason::Letter
    }
}

/// Why a text begins with no number, as `tokens` tells of one that begins with a digit.
#[tactic(auto, unfolding(rv_lex::specs::Front::literal))]
pub fn number_reason(text: &[u8]) -> Option<NumberReason>
    ensures agrees { option_map number_fault result ≡ result_err (front.literal text.now) }
    // What it says is so.
    ensures says { IfSome result (λ reason. NumberSays reason text.now) }
{
    let (word, after) = text.split_at(literal_len(text));
    if is_literal(word) && !goes_on(after) {
        return None;
    }
    Some(reason_of(text))
}
