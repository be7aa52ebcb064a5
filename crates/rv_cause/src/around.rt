//! Where a word of a unit text stands: in which package, protected unit, task and operation.

use crate::words::Words;
use rv_lex::token::Token;

/// What is around a word of a unit text.
#[derive(Clone, Copy)]
pub struct Around<'a> {
    /// The package.
    pub unit: &'a str,
    /// The protected unit or the task; empty where the word stands in none.
    pub home: &'a str,
    /// The operation; empty where the word stands in none.
    pub operation: &'a str,
    /// Whether the operation is a function.
    pub is_function: bool,
    /// Whether the protected unit or the task is a body.
    pub is_body: bool,
    /// Whether it is a task.
    pub is_task: bool,
    /// Whether the package is a body.
    pub is_package_body: bool,
    // Whether `private` of the protected unit stands before the word.
    is_private: bool,
    /// How many parentheses are open.
    pub parentheses: usize,
    // How many parts that end with `end` are open, and how many are around the body of `home` and of `operation`.
    depth: usize,
    home_depth: usize,
    operation_depth: usize,
    /// Whether the word stands in the head of a protected unit, a task or an operation: those since the last `;` or `is` begin
    /// what may have an `is`.
    pub is_in_head: bool,
}

// Whether the word begins a statement that ends with `end`.
fn opens(word: &Words<'_, '_>) -> bool {
    !word.was(1, "end") && word.fit("^if|case|loop|select")
}

impl<'a> Around<'a> {
    /// Before the first word.
    pub fn nothing() -> Around<'a> {
        Around {
            unit: "",
            home: "",
            operation: "",
            is_function: false,
            is_body: false,
            is_task: false,
            is_package_body: false,
            is_private: false,
            parentheses: 0,
            depth: 0,
            home_depth: 0,
            operation_depth: 0,
            is_in_head: false,
        }
    }

    /// Whether a declaration of the protected unit is around, and no operation's body.
    pub fn is_specification(&self) -> bool {
        !self.home.is_empty() && !self.is_body && !self.is_task
    }

    /// What is around the first word at a place or behind it.
    pub fn of(tokens: &[Token<'a>], place: usize) -> Around<'a> {
        let mut around = Around::nothing();
        for (here, token) in tokens.iter().enumerate() {
            if token.place >= place {
                return around;
            }
            around.pass(&Words::from(tokens, here));
        }
        around
    }

    /// Whether what is declared here is hidden from other units: behind `private`, or in the package's body.
    pub fn is_hidden(&self) -> bool {
        self.is_package_body || self.is_private && !self.home.is_empty()
    }

    /// The name of the innermost operation, protected unit, task or package that isn't ended here.
    pub fn innermost(&self) -> &'a str {
        if !self.operation.is_empty() {
            return self.operation;
        }
        if !self.home.is_empty() {
            return self.home;
        }
        self.unit
    }

    // A package begins.
    fn begin_package(&mut self, word: &Words<'_, 'a>) {
        let is_body = word.is(1, "body");
        if !is_body {
            self.unit = word.word(1);
        }
        self.home = "";
        self.operation = "";
        self.is_package_body = is_body;
        self.is_in_head = true;
        self.depth = 0;
    }

    // A protected unit or a task begins.
    fn begin_home(&mut self, word: &Words<'_, 'a>) {
        let is_body = word.is(1, "body");
        let is_second = is_body || word.is(1, "type");
        self.home = word.word(if is_second { 2 } else { 1 });
        self.is_body = is_body;
        self.is_private = false;
        self.is_task = word.is(0, "task");
        self.operation = "";
        self.home_depth = self.depth.saturating_add(1);
        self.is_in_head = true;
    }

    // An operation begins.
    fn begin_operation(&mut self, word: &Words<'_, 'a>) {
        self.operation = word.word(1);
        self.is_function = word.is(0, "function");
        self.operation_depth = self.depth.saturating_add(1);
        self.is_in_head = true;
    }

    // Leaves the operation and the protected unit or task whose parts have ended.
    fn leave(&mut self) {
        if self.depth < self.operation_depth {
            self.operation = "";
        }
        if self.depth < self.home_depth {
            self.home = "";
        }
    }

    // A part ends.
    fn end(&mut self) {
        self.depth = self.depth.saturating_sub(1);
        self.leave();
    }

    // A declaration without a part of its own ends.
    fn end_heading(&mut self) {
        self.is_in_head = false;
        self.leave();
    }

    // Signs.
    fn pass_sign(&mut self, word: &Words<'_, 'a>) {
        if word.is(0, "(") {
            self.parentheses = self.parentheses.saturating_add(1);
        } else if word.is(0, ")") {
            self.parentheses = self.parentheses.saturating_sub(1);
        } else if word.is(0, ";") && self.parentheses == 0 && self.is_in_head {
            self.end_heading();
        }
    }

    // Words within a part.
    fn pass_inner(&mut self, word: &Words<'_, 'a>) {
        if word.is(0, "is") && self.is_in_head {
            self.depth = self.depth.saturating_add(1);
            self.is_in_head = false;
        } else if word.is(0, "end") {
            self.end();
        } else if opens(word) {
            self.depth = self.depth.saturating_add(1);
        } else {
            self.pass_sign(word);
        }
    }

    /// Behind one word more.
    pub fn pass(&mut self, word: &Words<'_, 'a>) {
        if word.is(0, "package") {
            self.begin_package(word);
        } else if word.fit("^protected|task") {
            self.begin_home(word);
        } else if word.fit("^function|procedure|entry") {
            self.begin_operation(word);
        } else if word.is(0, "private") && self.is_specification() {
            self.is_private = true;
        } else {
            self.pass_inner(word);
        }
    }
}
