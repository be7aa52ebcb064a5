//! What the units of a script declare, as their texts have it.

use crate::cause::Cause;
use rv_text::is_same_name;

/// What a declaration declares.
#[derive(Clone, Copy, PartialEq)]
pub enum Sort {
    Unit,
    Subtype,
    Constant,
    Task,
    /// A protected unit, single or a type.
    Protected,
    /// An object of a protected type, or a suspension object.
    Object,
    Component,
    Function,
    Procedure,
    Entry,
    /// A parameter `in`.
    Given,
    /// A parameter `out` or `in out`.
    Parameter,
    LoopParameter,
    Variable,
}

/// A declaration of a unit.
#[derive(Clone, Copy)]
pub struct Declared<'a> {
    /// The unit.
    pub unit: &'a str,
    /// The protected unit or the task that it stands in; empty where it is the package's.
    pub home: &'a str,
    /// The operation that it stands in, if it does.
    pub operation: &'a str,
    pub name: &'a str,
    pub sort: Sort,
    /// The name of its subtype or type, if it has one; `type` of a protected type.
    pub mark: &'a str,
    /// The byte of its unit's text where its name stands.
    pub at: usize,
    /// Whether it stands behind `private`, or in the package's body.
    pub is_hidden: bool,
    /// Whether it stands in no body of a protected unit or task.
    pub is_declaration: bool,
    /// Whether it stands in the text that is explained.
    pub is_own: bool,
}

impl Sort {
    /// What it is, in words.
    pub fn words<'w>(self) -> &'w str {
        match self {
            Sort::Unit => "a package",
            Sort::Subtype => "a subtype",
            Sort::Constant => "a constant",
            Sort::Task => "a task",
            Sort::Protected => "a protected unit",
            Sort::Object => "an object",
            Sort::Component => "a component",
            Sort::Function => "a function",
            Sort::Procedure => "a procedure",
            Sort::Entry => "an entry",
            Sort::Given => "an in parameter",
            Sort::Parameter => "a parameter",
            Sort::LoopParameter => "a loop parameter",
            Sort::Variable => "a variable",
        }
    }

    /// Whether it is called.
    pub fn is_operation(self) -> bool {
        self == Sort::Function || self == Sort::Procedure || self == Sort::Entry
    }
}

impl<'a> Declared<'a> {
    /// What a shape declares in a unit, or as an operation of its object of a name.
    pub fn shaped(unit: &'a str, home: &'a str, name: &'a str, sort: Sort) -> Declared<'a> {
        Declared {
            unit,
            home,
            operation: "",
            name,
            sort,
            mark: "",
            at: 0,
            is_hidden: false,
            is_declaration: true,
            is_own: false,
        }
    }

    /// The same, of a type.
    pub fn of(self, mark: &'a str) -> Declared<'a> {
        Declared {
            unit: self.unit,
            home: self.home,
            operation: self.operation,
            name: self.name,
            sort: self.sort,
            mark,
            at: self.at,
            is_hidden: self.is_hidden,
            is_declaration: self.is_declaration,
            is_own: self.is_own,
        }
    }

    /// Whether others call its operations.
    pub fn is_object(&self) -> bool {
        self.sort == Sort::Protected && self.mark != "type" || self.sort == Sort::Object
    }

    /// The protected unit that has its operations.
    pub fn operations_home(&self) -> &'a str {
        if self.sort == Sort::Protected {
            self.name
        } else {
            self.mark
        }
    }

    /// Whether it has this name.
    pub fn is_named(&self, name: &str) -> bool {
        is_same_name(self.name, name)
    }

    /// Whether it stands in this unit, outside of protected units and tasks.
    pub fn is_of_package(&self, unit: &str) -> bool {
        self.home.is_empty() && self.sort != Sort::Unit && is_same_name(self.unit, unit)
    }

    /// Whether it is a parameter of an operation, in the operation's declaration.
    pub fn is_parameter_of(&self, unit: &str, home: &str, operation: &str) -> bool {
        let is_parameter = self.sort == Sort::Given || self.sort == Sort::Parameter;
        is_parameter
            && self.is_declaration
            && is_same_name(self.operation, operation)
            && is_same_name(self.home, home)
            && is_same_name(self.unit, unit)
    }

    /// Whether it is a component or an operation of this protected unit.
    pub fn is_member(&self, unit: &str, home: &str) -> bool {
        let is_part = self.sort == Sort::Component || self.sort.is_operation();
        is_part && is_same_name(self.home, home) && is_same_name(self.unit, unit)
    }

    /// Whether it stands in the same region as another.
    pub fn is_beside(&self, other: &Declared<'_>) -> bool {
        is_same_name(self.unit, other.unit)
            && is_same_name(self.home, other.home)
            && is_same_name(self.operation, other.operation)
            && self.is_declaration == other.is_declaration
    }

    /// What is said of it where a word stands: `{0}` is its name, `{1}` its home, `{2}` its unit.
    pub fn cause(&self, at: usize, said: &'static str) -> Cause<'a> {
        Cause::new(at, said, [self.name, self.home, self.unit])
    }

    /// The same, which tells its line where it stands in the text that is explained: by the first sentence, else by the second.
    pub fn told(&self, at: usize, with_line: &'static str, without: &'static str) -> Cause<'a> {
        if self.is_own {
            return self.cause(at, with_line).with_other(self.at);
        }
        self.cause(at, without)
    }
}

/// One of two words: the first where something is so.
pub(crate) fn either<'a>(is_so: bool, first: &'a str, second: &'a str) -> &'a str {
    if is_so { first } else { second }
}

/// That a name is of a sort, and what follows from that.
pub fn phrase<'a>(at: usize, name: &'a str, sort: &'a str, behind: &'a str) -> Cause<'a> {
    Cause::new(at, "{0} is {1}{2}", [name, sort, behind])
}

/// That something is what it is, and what follows from that.
pub fn is_a<'a>(at: usize, item: &Declared<'a>, behind: &'a str) -> Cause<'a> {
    if !item.is_own {
        return phrase(at, item.name, item.sort.words(), behind);
    }
    let said = "{0} is {1}, declared in line {line}{2}";
    Cause::new(at, said, [item.name, item.sort.words(), behind]).with_other(item.at)
}
