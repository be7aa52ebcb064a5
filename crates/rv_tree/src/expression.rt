//! Expressions (ISO/IEC 8652:2012, 4.4). One that begins with a token of its own has that token's place, and the
//! place of each other one is that of its first part.

use crate::name::{Identifier, Name};

/// What joins the relations of an expression; one expression has one of them.
#[derive(Clone, Copy, Debug, PartialEq, Eq)]
pub enum LogicalOperator {
    And,
    Or,
    Xor,
    AndThen,
    OrElse,
}

/// What two simple expressions are compared by (4.5.2).
#[derive(Clone, Copy, Debug, PartialEq, Eq)]
pub enum RelationalOperator {
    Equal,
    NotEqual,
    Less,
    LessEqual,
    Greater,
    GreaterEqual,
}

/// A binary adding operator, and the sign before a term.
#[derive(Clone, Copy, Debug, PartialEq, Eq)]
pub enum AddingOperator {
    Plus,
    Minus,
}

/// What joins two factors (4.5.5).
#[derive(Clone, Copy, Debug, PartialEq, Eq)]
pub enum MultiplyingOperator {
    Times,
    Divide,
    Mod,
    Rem,
}

/// An operator of the highest precedence, before a primary.
#[derive(Clone, Copy, Debug, PartialEq, Eq)]
pub enum HighestOperator {
    Abs,
    Not,
}

/// A further factor of a product, and what multiplies it.
#[cycle(expression)]
#[derive(Drop)]
pub struct Factor {
    pub operator: MultiplyingOperator,
    pub operand: Expression,
}

/// A further term of a sum, and what adds it.
#[cycle(expression)]
#[derive(Drop)]
pub struct Term {
    pub operator: AddingOperator,
    pub operand: Expression,
}

/// An expression, with each operator at its precedence (4.4). A place is the index of a byte in the text.
#[cycle(expression)]
#[derive(Drop)]
pub enum Expression {
    /// A whole number, from 0 to 2147483647.
    Literal(usize, u64),
    Name(Name),
    /// `Prefix'Attribute` (4.1.4).
    Attribute(Name, Identifier),
    /// `Name (A, B)`, with at least one argument: a call or a conversion.
    Call(Name, Vec<Expression>),
    Parenthesized(usize, Box<Expression>),
    Highest(usize, HighestOperator, Box<Expression>),
    /// Factors, with at least one after the first.
    Product(Box<Expression>, Vec<Factor>),
    /// A sign and the term that it stands before.
    Signed(usize, AddingOperator, Box<Expression>),
    /// Terms, with at least one after the first, which alone may have a sign.
    Sum(Box<Expression>, Vec<Term>),
    Relation(Box<Expression>, RelationalOperator, Box<Expression>),
    /// Relations, with at least one after the first, joined by one operator.
    Logical(LogicalOperator, Box<Expression>, Vec<Expression>),
}

/// `range Low .. High` (3.5).
#[derive(Drop)]
pub struct RangeConstraint {
    pub at: usize,
    pub low: Expression,
    pub high: Expression,
}
