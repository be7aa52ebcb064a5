//! Operators of computed expressions.

ghost use Rattle.std.specs.Prelude.{◌≡◌, ◌++◌, ◌∷◌, [], IfOk, OnOk, Some, List, map};
ghost use Rattle.rv_code.specs.Expressions.{chain, and_link, no_links, within, prefixed, links_of};
ghost use Rattle.rv_code.specs.ExpressionView.{expression_view as code_view, link_view};
ghost use Rattle.rv_types.specs.Typed.{adds as adds_by_types, is_related as related, value_of, chained, signed_code as code_signed, multiplying_operator as operator_of_factor, relational_operator as operator_of_relation, logical_code as operator_of_logic, link as link_to, is_decided as is_decided_by, joined_value as value_joined};
ghost use Rattle.rv_types.specs.TypedView.{typed_view};

use crate::refused::Refused;
use crate::typed::Typed;
use rv_code::{Expression as Code, Link, Operator, Prefix};
use rv_shape::kind::{Range, ValueType};
use rv_static::{Number, TypeFault};
use rv_tree::{AddingOperator, LogicalOperator, MultiplyingOperator, RelationalOperator};
use std::alloc::Global;

/// The type of a sum or a difference, and what adds its operands.
#[derive(Clone, Copy)]
pub struct Adder {
    pub of: ValueType,
    pub operator: Operator,
}

/// `+` and `-`; whether the operators of Ada.Real_Time are visible.
#[tactic(auto, unfolding(crate::specs::Typed::adds))]
pub(crate) fn adder_of(
    times: bool,
    left: ValueType,
    operator: AddingOperator,
    right: ValueType,
) -> Option<Adder>
    ensures { result ≡ adds_by_types times left operator right }
{
    match (left, operator, right) {
        (ValueType::Integer, AddingOperator::Plus, ValueType::Integer) => Some(Adder {
            of: ValueType::Integer,
            operator: Operator::Add,
        }),
        (ValueType::Integer, AddingOperator::Minus, ValueType::Integer) => Some(Adder {
            of: ValueType::Integer,
            operator: Operator::Subtract,
        }),
        (ValueType::Time, AddingOperator::Plus, ValueType::TimeSpan)
        | (ValueType::TimeSpan, AddingOperator::Plus, ValueType::Time) => {
            if times {
                Some(Adder {
                    of: ValueType::Time,
                    operator: Operator::AddTime,
                })
            } else {
                None
            }
        }
        _ => None,
    }
}

/// Whether such an operator takes a left operand of the type at all.
pub(crate) fn takes_left(times: bool, left: ValueType, operator: AddingOperator) -> bool {
    match left {
        ValueType::Integer => true,
        ValueType::Boolean => false,
        ValueType::Time | ValueType::TimeSpan => times && operator == AddingOperator::Plus,
    }
}

/// Whether relations take values of the type; whether the operators of Ada.Real_Time are visible.
#[tactic(auto, unfolding(crate::specs::Typed::is_related))]
pub(crate) fn is_related(times: bool, of: ValueType) -> bool
    ensures { result ≡ related times of }
{
    match of {
        ValueType::Integer | ValueType::Boolean => true,
        ValueType::Time => times,
        ValueType::TimeSpan => false,
    }
}

pub(crate) fn multiplying_operator(operator: MultiplyingOperator) -> Operator
    ensures { result ≡ operator_of_factor operator }
{
    match operator {
        MultiplyingOperator::Times => Operator::Multiply,
        MultiplyingOperator::Divide => Operator::Divide,
        MultiplyingOperator::Mod => Operator::Modulo,
        MultiplyingOperator::Rem => Operator::Remainder,
    }
}

pub(crate) fn relational_operator(operator: RelationalOperator) -> Operator
    ensures { result ≡ operator_of_relation operator }
{
    match operator {
        RelationalOperator::Equal => Operator::Equal,
        RelationalOperator::NotEqual => Operator::NotEqual,
        RelationalOperator::Less => Operator::Less,
        RelationalOperator::LessEqual => Operator::LessEqual,
        RelationalOperator::Greater => Operator::Greater,
        RelationalOperator::GreaterEqual => Operator::GreaterEqual,
    }
}

pub(crate) fn logical_operator(operator: LogicalOperator) -> Operator
    ensures { result ≡ operator_of_logic operator }
{
    match operator {
        LogicalOperator::And => Operator::And,
        LogicalOperator::Or => Operator::Or,
        LogicalOperator::Xor => Operator::Xor,
        LogicalOperator::AndThen => Operator::AndThen,
        LogicalOperator::OrElse => Operator::OrElse,
    }
}

/// Whether a static value decides a short-circuit form.
pub(crate) fn is_decided(operator: LogicalOperator, before: Option<i64>) -> bool
    ensures { result ≡ is_decided_by operator before }
{
    let Some(value) = before else {
        return false;
    };
    match operator {
        LogicalOperator::AndThen => value == 0,
        LogicalOperator::OrElse => value != 0,
        _ => false,
    }
}

/// The value of a short-circuit form of two operands, where both are static.
pub(crate) fn joined_value(
    operator: LogicalOperator,
    before: Option<i64>,
    right: Option<i64>,
) -> Option<i64>
    ensures { result ≡ value_joined operator before right }
{
    let value = before?;
    let other = right?;
    if is_decided(operator, before) {
        Some(value)
    } else {
        Some(other)
    }
}

/// The number of the operands so far, which has to be an Integer: else it is too large at the place of the first of them.
pub(crate) fn small_enough(found: Option<Number>, at: usize) -> Result<Number, Refused>
    ensures { IfOk result (λ n. found ≡ Some n) }
{
    match found {
        Some(number) => Ok(number),
        None => Err(Refused(TypeFault::TooLarge(at))),
    }
}

/// Puts an operand with its operator behind those that are there.
#[tactic(auto, using(crate::proofs::Pushed::pushed_link))]
pub(crate) fn push_link(
    links: &mut Vec<Link>,
    operator: Operator,
    operand: Code,
) -> Result<(), Refused>
    ensures { OnOk result (map link_view links.new.items ≡ map link_view links.old.items ++ link_to operator (code_view operand) ∷ []) }
{
    links.push(Link { operator, operand })?;
    Ok(())
}

/// A chain of operands.
pub(crate) fn chain_of(
    alloc: Global,
    of: ValueType,
    first: Code,
    links: Vec<Link>,
) -> Result<Typed, Refused>
    ensures { IfOk result (λ t. chained of (code_view first) (map link_view links.items) ≡ Some (typed_view t)) }
{
    let first = Box::new(alloc, first)?;
    Ok(Typed {
        of,
        code: Code::Chain(first, links),
    })
}

/// A chain of two operands.
pub(crate) fn pair_of(
    alloc: Global,
    first: Code,
    operator: Operator,
    second: Code,
) -> Result<Typed, Refused>
    ensures { IfOk result (λ t. value_of ValueType.Boolean (chain (code_view first) (and_link operator (code_view second) no_links)) ≡ typed_view t) }
{
    let mut links = Vec::new(alloc);
    push_link(&mut links, operator, second)?;
    chain_of(alloc, ValueType::Boolean, first, links)
}

/// An operator before its operand.
pub(crate) fn prefixed_by(
    alloc: Global,
    of: ValueType,
    operator: Prefix,
    operand: Code,
) -> Result<Typed, Refused>
    ensures { IfOk result (λ t. typed_view t ≡ value_of of (prefixed operator (code_view operand))) }
{
    let operand = Box::new(alloc, operand)?;
    Ok(Typed {
        of,
        code: Code::Prefixed(operator, operand),
    })
}

/// A sign before its operand.
pub(crate) fn signed_by(
    alloc: Global,
    sign: AddingOperator,
    operand: Code,
) -> Result<Typed, Refused>
    ensures { IfOk result (λ t. typed_view t ≡ value_of ValueType.Integer (code_signed sign (code_view operand))) }
{
    match sign {
        AddingOperator::Plus => Ok(Typed {
            of: ValueType::Integer,
            code: operand,
        }),
        AddingOperator::Minus => prefixed_by(alloc, ValueType::Integer, Prefix::Negate, operand),
    }
}

/// A value that must lie in a range.
pub(crate) fn within_range(alloc: Global, range: Range, value: Code) -> Result<Code, Refused>
    ensures { IfOk result (λ c. code_view c ≡ within range (code_view value)) }
{
    let value = Box::new(alloc, value)?;
    Ok(Code::Within(range, value))
}
