//! Tables of causes, by what stands around the word at fault.

use crate::around::Around;
use crate::cause::Cause;
use crate::grammar::is_other_ada;
use crate::words::Words;

/// Where a word stands, or what it is.
#[derive(Clone, Copy)]
pub enum Within {
    Anywhere,
    /// In a package, outside of protected units and tasks.
    Package,
    /// Behind the first word of a package.
    Text,
    /// In the head of a protected unit, a task or an operation.
    Head,
    /// In the declaration of a protected unit, and in no operation's body.
    Specification,
    /// In the body of a protected unit or a task.
    Body,
    Function,
    /// Behind a parenthesis that is open.
    Parentheses,
    /// In an operation or a task, behind its head.
    Statement,
    /// In a procedure, an entry or a task.
    NoFunction,
    /// A reserved word of Ada.
    Reserved,
    /// A reserved word of Ada that no production has.
    OtherAda,
}

/// What is said of a word that stands there, among such words.
#[derive(Clone, Copy)]
pub struct Case {
    pub within: Within,
    /// The pattern of the words around.
    pub words: &'static str,
    /// The sentence: in it `{0}` is the word, `{1}` and `{2}` are those behind it, `{3}` the one before it, `{4}` the package and
    /// `{5}` the protected unit or the task.
    pub said: &'static str,
}

// Whether a word stands there, or is that.
fn is_within(within: Within, words: &Words<'_, '_>, around: &Around<'_>) -> bool {
    match within {
        Within::Anywhere => true,
        Within::Package => around.home.is_empty(),
        Within::Text => !around.unit.is_empty(),
        Within::Head => around.is_in_head,
        Within::Specification => around.is_specification(),
        Within::Body => around.is_body,
        Within::Function => around.is_function,
        Within::Parentheses => around.parentheses > 0,
        Within::Statement => !around.is_in_head && !around.unit.is_empty(),
        Within::NoFunction => !around.is_function,
        Within::Reserved => words.is_reserved(),
        Within::OtherAda => is_other_ada(words.word(0)),
    }
}

/// What a sentence of a case says of a word.
pub fn told<'a>(words: &Words<'_, 'a>, around: &Around<'a>, said: &'static str) -> Cause<'a> {
    Cause::full(
        words.place(0),
        said,
        [
            words.word(0),
            words.word(1),
            words.word(2),
            words.back(1),
            around.unit,
            around.home,
        ],
    )
}

/// What is said of a word by the first case that it is.
pub fn first_of<'a>(
    cases: &[Case],
    words: &Words<'_, 'a>,
    around: &Around<'a>,
) -> Option<Cause<'a>> {
    for case in cases {
        if is_within(case.within, words, around) && words.fit(case.words) {
            return Some(told(words, around, case.said));
        }
    }
    None
}
