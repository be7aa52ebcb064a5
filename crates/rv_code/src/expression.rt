//! Expressions (4.4). A value is a whole number: 0 for False and 1 for True, ticks for a Time or a Time_Span.

use rv_shape::kind::Range;

/// An operator before its operand.
#[derive(Clone, Copy)]
pub enum Prefix {
    /// `-` of an Integer (4.5.4).
    Negate,
    /// `abs` of an Integer (4.5.6).
    Absolute,
    /// `not` of a Boolean (4.5.6).
    Not,
}

/// An operator between two operands.
#[derive(Clone, Copy)]
pub enum Operator {
    /// `+` of two Integers (4.5.3).
    Add,
    /// `-` of two Integers (4.5.3).
    Subtract,
    /// `*` (4.5.5).
    Multiply,
    /// `/`, truncated toward zero (4.5.5).
    Divide,
    /// `mod`, with the sign of the right operand (4.5.5).
    Modulo,
    /// `rem`, with the sign of the left operand (4.5.5).
    Remainder,
    /// `+` of a Time and a Time_Span, in either order (D.8).
    AddTime,
    /// `and` of two Booleans, both evaluated (4.5.1).
    And,
    /// `or` of two Booleans, both evaluated (4.5.1).
    Or,
    /// `xor` of two Booleans (4.5.1).
    Xor,
    /// `and then`: the right operand is evaluated where the left one is True (4.5.1).
    AndThen,
    /// `or else`: the right operand is evaluated where the left one is False (4.5.1).
    OrElse,
    /// `=` (4.5.2).
    Equal,
    /// `/=` (4.5.2).
    NotEqual,
    /// `<` (4.5.2).
    Less,
    /// `<=` (4.5.2).
    LessEqual,
    /// `>` (4.5.2).
    Greater,
    /// `>=` (4.5.2).
    GreaterEqual,
}

/// What a call, a `delay until` or `Clock` goes to. Objects and operations are numbered as the catalogue numbers
/// them, from 1.
#[derive(Clone, Copy)]
pub enum Callee {
    /// An operation of the same object, by its number: an internal call (9.5).
    Internal(usize),
    /// An entry of the same object, by its number (9.5.3). It names no object: those of a type share its bodies. The host
    /// refuses such a call as potentially blocking (9.5.1).
    OwnEntry(usize),
    /// A protected function, by its object and its number (9.5.1).
    Function(usize, usize),
    /// A protected procedure, by its object and its number (9.5.1).
    Procedure(usize, usize),
    /// An entry, by its object and its number (9.5.3).
    Entry(usize, usize),
    /// `Set_True` of a suspension object (D.10).
    SetTrue(usize),
    /// `Set_False` of a suspension object (D.10).
    SetFalse(usize),
    /// `Current_State` of a suspension object, a Boolean (D.10).
    CurrentState(usize),
    /// `Suspend_Until_True` of a suspension object (D.10).
    SuspendUntilTrue(usize),
    /// `delay until` the time that is its one argument (9.6).
    DelayUntil,
    /// `Ada.Real_Time.Clock` (D.8).
    Clock,
}

/// An operator of a chain, with the operand on its right.
#[cycle(expression)]
#[derive(Drop)]
pub struct Link {
    pub operator: Operator,
    pub operand: Expression,
}

/// An expression. Operands, arguments and links are evaluated from left to right (own; 4.5 leaves it open).
#[cycle(expression)]
#[derive(Drop)]
pub enum Expression {
    /// A literal, or what a static expression gives (4.9).
    Value(i64),
    /// A parameter, a variable, a constant or a loop parameter, by its slot.
    Variable(usize),
    /// A component of the protected object, by its index from 0.
    Component(usize),
    /// An operator and its operand.
    Prefixed(Prefix, Box<Expression>),
    /// A first operand and the links behind it, which group to the left; one operand is no chain.
    Chain(Box<Expression>, Vec<Link>),
    /// A value that must lie in the range: of a conversion, an argument, a result (4.6, 6.4.1, 6.5).
    Within(Range, Box<Expression>),
    /// The value that a function, `Current_State` or `Clock` gives, with the arguments of the call (6.4).
    Call(Callee, Vec<Expression>),
}
