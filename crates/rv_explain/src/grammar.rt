//! The cause of a fault of the grammar, from its reason.

use crate::habits::{between, habit};
use rv_cause::around::Around;
use rv_cause::cause::Cause;
use rv_cause::grammar::other_ada;
use rv_cause::words::Words;
use rv_lex::kind::Kind;
use rv_lex::token::Token;
use rv_reason::{Crossed, Mend, Opener, Reason};

/// A place of a text behind which it can't go on.
#[derive(Clone, Copy)]
pub(crate) struct Stop<'t, 'a> {
    pub(crate) tokens: &'t [Token<'a>],
    pub(crate) words: Words<'t, 'a>,
    pub(crate) around: Around<'a>,
    /// The byte of the text, or its length where it ends too early.
    pub(crate) at: usize,
}

const RESERVED: &str = "`{0}` is a reserved word, and no name (2.9)";

// What a sign does that people write in place of another; empty of other words.
fn deed_of(word: Option<Kind>) -> &'static str {
    match word {
        Some(Kind::Equal) => "compares",
        Some(Kind::Becomes) => "assigns",
        Some(Kind::Arrow) => "stands before an aspect's value, or behind choices",
        Some(Kind::Colon) => "stands behind names that are declared",
        Some(Kind::Semicolon) => "ends statements and declarations, and parts parameters",
        Some(Kind::Comma) => "parts names and arguments",
        Some(Kind::Dot) => "stands within names",
        Some(Kind::DoubleDot) => "parts the bounds of a range",
        _ => "",
    }
}

// The end of a statement in one word, by the word that opens it.
fn joined_of(word: Kind) -> Option<&'static str> {
    match word {
        Kind::If => Some("endif"),
        Kind::Case => Some("endcase"),
        Kind::Loop => Some("endloop"),
        _ => None,
    }
}

// Whether a word, or the end of the text, ends or begins what stands further out than a construct that is open.
fn is_further_out(word: Option<Kind>) -> bool {
    match word {
        None => true,
        Some(
            Kind::End
            | Kind::Package
            | Kind::Protected
            | Kind::Task
            | Kind::Function
            | Kind::Procedure
            | Kind::Entry,
        ) => true,
        _ => false,
    }
}

// The cause of a sentence with three words.
fn of_three<'a>(
    at: usize,
    said: &'static str,
    first: &'a str,
    second: &'a str,
    third: &'a str,
) -> Cause<'a> {
    Cause::new(at, said, [first, second, third])
}

impl<'a> Stop<'_, 'a> {
    // The name of a construct, or the word that opens it where it has no name.
    fn name_of(&self, opener: Opener) -> &'a str {
        Words::at(self.tokens, opener.name.unwrap_or(opener.at)).word(0)
    }

    // That another word would serve in place of one.
    fn of_instead(&self, at: usize, meant: Kind) -> Cause<'a> {
        let words = Words::at(self.tokens, at);
        let word = words.word(0);
        if meant == Kind::Identifier {
            let is_reserved = words.is_reserved();
            let other = "a name is wanted in place of `{0}`";
            return Cause::of(at, if is_reserved { RESERVED } else { other }, word);
        }
        if words.kind() == Some(Kind::Identifier) {
            let said = "`{0}` is near to the reserved word `{1}`";
            return Cause::pair(at, said, word, meant.spelling());
        }
        let deed = deed_of(words.kind());
        let said = if deed.is_empty() {
            "`{1}` is wanted in place of `{0}`"
        } else {
            "`{1}` is wanted here; `{0}` {2}"
        };
        of_three(at, said, word, meant.spelling(), deed)
    }

    // That a word is missing before one.
    fn of_missing(&self, at: usize, word: Kind) -> Cause<'a> {
        let words = Words::at(self.tokens, at);
        let before = words.back(1);
        if word == Kind::Semicolon && at == self.at {
            if let Some(cause) = between(&words, &self.around) {
                return cause;
            }
        }
        match word {
            Kind::Literal => Cause::of(at, "a value is missing behind `{0}`", before),
            Kind::Identifier => Cause::of(at, "a name is missing behind `{0}`", before),
            Kind::Begin | Kind::End | Kind::Procedure | Kind::Function => {
                let said = "`{1}` is missing before `{0}`";
                Cause::pair(at, said, words.word(0), word.spelling())
            }
            _ => {
                let said = "`{1}` is missing behind `{0}`";
                Cause::pair(at, said, before, word.spelling())
            }
        }
    }

    // That an end has the name of a construct further out.
    fn of_crossed(&self, crossed: Crossed) -> Cause<'a> {
        let said = "`end {0}` is missing for the `{1}` of line {line}: it stands within `{2}`";
        let inner = self.name_of(crossed.opener);
        let outer = Words::at(self.tokens, crossed.at).word(0);
        let word = crossed.opener.word.spelling();
        of_three(crossed.at, said, inner, word, outer).with_other(crossed.opener.at)
    }

    // Where the end of a statement is written in one word, behind what opened it, if it is.
    fn joined(&self, opener: Opener) -> Option<Cause<'a>> {
        let wrong = joined_of(opener.word)?;
        for token in self.tokens {
            let is_between = token.place > opener.at && token.place < self.at;
            if is_between && token.text.eq_ignore_ascii_case(wrong) {
                let said = "`{0}` is written in two words: end {1} (5.3)";
                return Some(Cause::pair(token.place, said, token.text, opener.word.spelling()));
            }
        }
        None
    }

    // That a construct has no end.
    fn no_end(&self, opener: Opener) -> Cause<'a> {
        if let Some(cause) = self.joined(opener) {
            return cause;
        }
        let said = "`end {0}` is missing for the `{1}` of line {line}";
        let name = self.name_of(opener);
        Cause::pair(self.at, said, name, opener.word.spelling()).with_other(opener.at)
    }

    // What is wrong where no construct is open, and no small change helps.
    fn outside(&self) -> Cause<'a> {
        let unit = self.around.unit;
        let word = self.words.word(0);
        if unit.is_empty() && word.is_empty() {
            let said = "a unit text is a package and its body; there is none";
            return Cause::plain(self.at, said);
        }
        if unit.is_empty() {
            let said = "`{0}` begins no unit text: `with`, `use`, `pragma` or `package` does";
            return Cause::of(self.at, said, word);
        }
        if self.around.is_package_body {
            let said = "`{0}` stands behind the end of the body of the package `{1}`";
            return Cause::pair(self.at, said, word, unit);
        }
        if word.is_empty() {
            let said = "the text ends here, without the body of the package `{0}`";
            return Cause::of(self.at, said, unit);
        }
        let said = "`{0}` can't stand here: behind the package `{1}` stands its body only";
        Cause::pair(self.at, said, word, unit)
    }

    // Whether `then` stands between what opened an if statement and the word at fault.
    fn has_then(&self, opener: Opener) -> bool {
        for token in self.tokens {
            let is_between = token.place > opener.at && token.place < self.at;
            if is_between && token.kind == Kind::Then {
                return true;
            }
        }
        false
    }

    // What is wrong where no small change helps.
    fn without_mend(&self, opener: Option<Opener>) -> Cause<'a> {
        let Some(opener) = opener else {
            return self.outside();
        };
        if is_further_out(self.words.kind()) {
            return self.no_end(opener);
        }
        if opener.word == Kind::If && !self.has_then(opener) {
            let said = "`then` is wanted behind the condition; `{0}` can't stand there (5.3)";
            return Cause::of(self.at, said, self.words.word(0));
        }
        let said = "`{0}` can't stand behind `{1}` here (docs/GRAMMAR.md)";
        Cause::pair(self.at, said, self.words.word(0), self.words.back(1))
    }

    // That a word is too many. Before statements in a body, `begin` may be meant to begin a block statement.
    fn too_many(&self) -> Cause<'a> {
        let is_block = self.words.kind() == Some(Kind::Begin)
            && (!self.around.operation.is_empty() || self.around.is_task);
        let said = if is_block {
            "`{0}` is a word too many here: there are no block statements (5.6)"
        } else {
            "`{0}` is a word too many here"
        };
        Cause::of(self.at, said, self.words.word(0))
    }

    /// The cause.
    pub(crate) fn cause(&self, reason: &Reason) -> Cause<'a> {
        if let Some(crossed) = reason.crossed {
            return self.of_crossed(crossed);
        }
        if let Some(cause) = habit(&self.words, &self.around) {
            return cause;
        }
        if let Some(cause) = other_ada(&self.words, &self.around) {
            return cause;
        }
        match reason.mend {
            Mend::Instead(at, word) => self.of_instead(at, word),
            Mend::Before(at, word) => self.of_missing(at, word),
            Mend::End(opener) => self.no_end(opener),
            Mend::Statement => {
                let said = "a statement is missing behind `{0}`; `null;` does nothing";
                Cause::of(self.at, said, self.words.back(1))
            }
            Mend::Nothing => self.too_many(),
            Mend::None => self.without_mend(reason.opener),
        }
    }
}
