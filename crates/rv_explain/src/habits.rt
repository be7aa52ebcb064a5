//! Forms of other languages, and forms in another order, behind which no text of the grammar goes on.

use rv_cause::around::Around;
use rv_cause::cases::{Case, Within, first_of, told};
use rv_cause::cause::Cause;
use rv_cause::words::{Words, is_among};
use rv_lex::kind::Kind;

// What is said of signs.
const SIGNS: [Case; 15] = [
    Case {
        within: Within::Anywhere,
        words: "NAME ^+ + ;",
        said: "there is no `++` in Ada: write {3} := {3} + 1 (5.2)",
    },
    Case {
        within: Within::Anywhere,
        words: "NAME ^+|-|* =",
        said: "there is no `{0}=` in Ada: write {3} := {3} {0} .. (5.2)",
    },
    Case {
        within: Within::Anywhere,
        words: ";|begin|then|else|loop|=> NAME ^/=",
        said: "`/=` compares for not equal; to divide write {3} := {3} / .. (4.5.2)",
    },
    Case {
        within: Within::Anywhere,
        words: "^/ /|*",
        said: "a comment begins with -- in Ada (2.7)",
    },
    Case {
        within: Within::Anywhere,
        words: "/ ^/|*",
        said: "a comment begins with -- in Ada (2.7)",
    },
    Case {
        within: Within::Anywhere,
        words: "< ^>",
        said: "write /= for not equal (4.5.2)",
    },
    Case {
        within: Within::Anywhere,
        words: "^< <",
        said: "there are no labels here (5.1)",
    },
    Case {
        within: Within::Anywhere,
        words: "^' _ '",
        said: "there are no characters in quotes here (2.6)",
    },
    Case {
        within: Within::Anywhere,
        words: "NAME ^: =",
        said: "no blank stands within `:=` (2.2)",
    },
    Case {
        within: Within::Anywhere,
        words: "for NAME ^=|:=",
        said: "`in` stands behind the parameter of a loop: write for {3} in {1} .. (5.5)",
    },
    Case {
        within: Within::Anywhere,
        words: "for ^(",
        said: "a loop takes a name and a range: write for I in 0 .. 9 loop (5.5)",
    },
    Case {
        within: Within::Anywhere,
        words: "NAME|NUMBER|) ^to NAME|NUMBER|-|(",
        said: "two points stand between the bounds of a range: write {3} .. {1} (3.5)",
    },
    Case {
        within: Within::Anywhere,
        words: ": NAME ^( _ ..",
        said: "a range stands behind the word range: write {3} range {1} .. (3.2.2)",
    },
    Case {
        within: Within::Anywhere,
        words: "( ^)",
        said: "there are no empty parentheses in Ada: leave them out (6.1)",
    },
    Case {
        within: Within::Anywhere,
        words: ", ^package",
        said: "`;` ends a context clause: write it in place of the `,` before {0} (10.1.2)",
    },
];

const AMONG_STATEMENTS: &str =
    "{3} is declared before the begin of the body: no declaration stands among statements (5.1)";

const BEFORE_SUBTYPE: &str = "a name stands before its subtype: write {0} : {3} (3.3.1)";

// What is said of declarations whose words stand in another order.
const DECLARATIONS: [Case; 18] = [
    Case {
        within: Within::Parentheses,
        words: ": NAME ^in out",
        said: "the mode of a parameter stands before its subtype: write : in out {3} (6.1)",
    },
    Case {
        within: Within::Parentheses,
        words: ": NAME ^in|out",
        said: "the mode of a parameter stands before its subtype: write : {0} {3} (6.1)",
    },
    Case {
        within: Within::Parentheses,
        words: "(|; ^in out NAME :",
        said: "the mode of a parameter stands behind the colon: write {2} : in out .. (6.1)",
    },
    Case {
        within: Within::Parentheses,
        words: "(|; ^in|out NAME :",
        said: "the mode of a parameter stands behind the colon: write {1} : {0} .. (6.1)",
    },
    Case {
        within: Within::Anywhere,
        words: "is|;|private|begin|then|else|loop|( int|unsigned|long|short ^NAME )|;|:=|=",
        said: "a name stands before its subtype: write {0} : Integer (3.3.1)",
    },
    Case {
        within: Within::Anywhere,
        words: "is|;|private|begin|then|else|loop|( bool ^NAME )|;|:=|=",
        said: "a name stands before its subtype: write {0} : Boolean (3.3.1)",
    },
    Case {
        within: Within::Anywhere,
        words: "is|;|private|begin|then|else|loop|( Integer|Natural|Positive|Boolean ^NAME )|;|:=|=",
        said: BEFORE_SUBTYPE,
    },
    Case {
        within: Within::Anywhere,
        words: "var|let|const|auto ^NAME :|:=|=",
        said: "a declaration begins with its name in Ada: leave {3} out (3.3)",
    },
    Case {
        within: Within::Anywhere,
        words: "function NAME ^: NAME",
        said: "the result of a function stands behind return: write function {3} return {1} (6.1)",
    },
    Case {
        within: Within::Function,
        words: ") ^: NAME ;|is",
        said: "the result of a function stands behind return: write return {1} (6.1)",
    },
    Case {
        within: Within::Package,
        words: ": NAME ^:=",
        said: "packages have no variables here: a component of a protected unit keeps a value (9.4)",
    },
    Case {
        within: Within::Specification,
        words: "private|; NAME ^:=",
        said: "the subtype of {3} stands before its value: write {3} : Integer := {1} (3.3.1)",
    },
    Case {
        within: Within::Specification,
        words: ";|is ^NAME :|,",
        said: "components stand behind the word private: write it before {0} (9.4)",
    },
    Case {
        within: Within::Statement,
        words: "begin|;|then|else|loop NAME ^: Integer|Natural|Positive|Boolean|Time|Time_Span ;|range",
        said: AMONG_STATEMENTS,
    },
    Case {
        within: Within::Statement,
        words: "begin|;|then|else|loop NAME ^: NAME :=|Integer|Natural|Positive|Boolean|Time|Time_Span",
        said: AMONG_STATEMENTS,
    },
    Case {
        within: Within::Statement,
        words: "begin|;|then|else|loop NAME ^: NAME ;",
        said: "`:=` assigns; a declaration of {3} stands before the begin of the body (5.1)",
    },
    Case {
        within: Within::Anywhere,
        words: "package ^NAME body",
        said: "the body of a package begins with: package body {0} is (7.2)",
    },
    Case {
        within: Within::Anywhere,
        words: "task|protected|type NAME ^(",
        said: "{3} has no discriminants here: leave the parentheses out (3.7)",
    },
];

const POINT: &str = "`;` is missing behind {3}, or a point before {0}: {3}.{0} (4.1.3)";

const CHOICES: &str = "choices are parted by `|`, and not by `{0}` (5.4)";

const ARGUMENTS: &str =
    "`;` is missing behind {3}, or the parentheses of its argument: {3} ({0}) (6.4)";

// What is said of aspects, entries, statements and expressions.
const OTHERS: [Case; 11] = [
    Case {
        within: Within::Anywhere,
        words: "is ^with NAME =>",
        said: "aspects stand before is, or before `;` where there is none: write with {1} => .. there (13.1.1)",
    },
    Case {
        within: Within::Anywhere,
        words: "task|protected|procedure|type NAME ^, NAME =>",
        said: "`with` is wanted before an aspect: write {3} with {1} => .. (13.1.1)",
    },
    Case {
        within: Within::Body,
        words: "when NAME ( NAME ^:",
        said: "the parameters of an entry stand before when (9.5.2)",
    },
    Case {
        within: Within::Statement,
        words: "exception|;|is when NAME ^or|,",
        said: CHOICES,
    },
    Case {
        within: Within::Statement,
        words: "exception|;|is when NAME . NAME ^or|,",
        said: CHOICES,
    },
    Case {
        within: Within::Anywhere,
        words: ";|begin|then|else|loop|=> break ^when|if",
        said: "there is no break in Ada: write exit when .. (5.7)",
    },
    Case {
        within: Within::Statement,
        words: "NAME ^: loop|for|while",
        said: "loops have no names here: leave {3} and the colon out (5.5)",
    },
    Case {
        within: Within::Anywhere,
        words: "then|else|begin|is|private ^;",
        said: "no semicolon stands behind {3}: leave it out (2.2)",
    },
    Case {
        within: Within::Anywhere,
        words: "exit ^if",
        said: "the condition of exit stands behind when: write exit when .. (5.7)",
    },
    Case {
        within: Within::Anywhere,
        words: ":=|(|return ^if|case",
        said: "there are no conditional expressions here: write a statement that begins with {0} (5.3)",
    },
    Case {
        within: Within::Anywhere,
        words: "' NAME ^(",
        said: "{3} is no attribute here; First and Last are (3.5)",
    },
];

const NO_BARRIER: &str = "the body of the entry has a barrier: write when .. before is (9.5.2)";

const NO_BODY: &str = "`body` is missing: the body of {5} begins with task body {5} is (9.1)";

// Whether the body of an entry goes on without its barrier.
fn lacks_barrier(words: &Words<'_, '_>, around: &Around<'_>) -> bool {
    let is_operation = around.is_body && around.is_in_head && !around.operation.is_empty();
    is_operation && !around.is_function && words.fit("NAME|) ^is")
}

// Whether the words of a task's body stand in its declaration.
fn lacks_body(words: &Words<'_, '_>, around: &Around<'_>) -> bool {
    let is_declared = around.is_task && !around.is_body && !around.home.is_empty();
    is_declared && words.fit("is|; ^begin|NAME")
}

/// Why a word can't stand where it does that somebody writes who knows another language, or another order of words; `None` where it is no
/// such word.
pub(crate) fn habit<'a>(words: &Words<'_, 'a>, around: &Around<'a>) -> Option<Cause<'a>> {
    if let Some(cause) = first_of(&SIGNS, words, around) {
        return Some(cause);
    }
    if let Some(cause) = first_of(&DECLARATIONS, words, around) {
        return Some(cause);
    }
    if let Some(cause) = first_of(&OTHERS, words, around) {
        return Some(cause);
    }
    if lacks_barrier(words, around) {
        return Some(told(words, around, NO_BARRIER));
    }
    if lacks_body(words, around) {
        return Some(told(words, around, NO_BODY));
    }
    if words.is(0, "|") && (words.is(1, "|") || words.was(1, "|")) {
        return Some(told(words, around, "write or for Boolean values (4.5.1)"));
    }
    None
}

// Whether a name or a number stands here, with one blank between it and a name before it.
fn is_beside(words: &Words<'_, '_>) -> bool {
    let before = words.before(1);
    let end = before.place(0).saturating_add(before.word(0).len());
    before.kind() == Some(Kind::Identifier) && words.place(0) == end.saturating_add(1)
}

/// What may be missing between a name and a word behind it among statements, where that needn't be a semicolon.
pub(crate) fn between<'a>(words: &Words<'_, 'a>, around: &Around<'a>) -> Option<Cause<'a>> {
    if around.is_in_head || !is_beside(words) {
        return None;
    }
    let is_name = words.kind() == Some(Kind::Identifier);
    let is_argument = is_name || words.kind() == Some(Kind::Literal);
    if is_argument && is_among(words.word(1), ";|,") {
        return Some(told(words, around, ARGUMENTS));
    }
    if is_name && words.is(1, "(") {
        return Some(told(words, around, POINT));
    }
    None
}
