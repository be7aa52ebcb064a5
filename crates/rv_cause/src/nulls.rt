//! Parts of units that have no values.

use crate::around::Around;
use crate::cause::Cause;
use crate::words::Words;
use rv_lex::token::Token;
use rv_text::integer_of;

// Whether a number and the one behind the two points are the bounds of a null range.
fn is_null(words: &Words<'_, '_>) -> bool {
    match (integer_of(words.word(0)), integer_of(words.word(2))) {
        (Some(low), Some(high)) => low > high,
        _ => false,
    }
}

// Where the null range stands of a subtype that a text declares, if it has one.
fn range_of<'t, 'a>(tokens: &'t [Token<'a>], name: &str) -> Option<Words<'t, 'a>> {
    for here in 0..tokens.len() {
        let words = Words::from(tokens, here);
        if words.was(4, name)
            && words.fit("subtype _ is _ range ^NUMBER .. NUMBER")
            && is_null(&words)
        {
            return Some(words);
        }
    }
    None
}

// That a part has no values, whose range or subtype stands at a word.
fn null_at<'a>(tokens: &[Token<'a>], words: &Words<'_, 'a>) -> Option<Cause<'a>> {
    if words.fit("range ^NUMBER .. NUMBER") && is_null(words) {
        let said = "{0} is above {1}: no value is between (3.5)";
        return Some(Cause::pair(words.place(0), said, words.word(0), words.word(2)));
    }
    if !words.fit(":|in|out|return ^NAME") {
        return None;
    }
    let range = range_of(tokens, words.word(0))?;
    Some(Cause::new(
        words.place(0),
        "{0} has no values: its range is {1} .. {2} (3.5)",
        [words.word(0), range.word(0), range.word(2)],
    ))
}

/// Which part of a protected unit has no values, as far as bounds are plain numbers.
pub fn null_part<'a>(tokens: &[Token<'a>]) -> Option<Cause<'a>> {
    let mut around = Around::nothing();
    for here in 0..tokens.len() {
        let words = Words::from(tokens, here);
        around.pass(&words);
        if around.is_specification() {
            if let Some(cause) = null_at(tokens, &words) {
                return Some(cause);
            }
        }
    }
    None
}
