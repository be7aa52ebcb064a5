//! What the numbers of a unit's table name: an expression, a statement, or the first of a list with the number of the rest.

ghost use Rattle.std.specs.Prelude.{◌≡◌, ◌∷◌, [], IfSome, IsNone};
ghost use Rattle.rv_code.specs.Expressions.{no_expressions, and_expression, no_links, and_link};
ghost use Rattle.rv_code.specs.Statements.{no_statements, and_statement, no_branches, and_branch, no_alternatives, and_alternative};
ghost use Rattle.rv_flat.specs.Tables.{trees};
ghost use Rattle.rv_flat.specs.Trees.{tree_at, as_expression, as_expressions, as_links, as_statement, as_statements, as_branches, as_alternatives, as_choices, as_targets, as_declarations, as_handlers, as_exceptions};
ghost use Rattle.rv_machine.specs.Nodes.{expression_by, statement_by};

use rv_code::{Callee, Choice, ExceptionChoice, Operator, Prefix, Target};
use rv_event::entry::Exception;
use rv_exec::ranges::Scheme;
use rv_flat::code::{Code, Kind};
use rv_shape::kind::Range;

/// An expression, its parts by their numbers (4.4).
#[derive(Clone, Copy)]
pub enum ExpressionNode {
    Value(i64),
    Variable(usize),
    Component(usize),
    Prefixed(Prefix, usize),
    Chain(usize, usize),
    Within(Range, usize),
    Call(Callee, usize),
}

/// A statement, its parts by their numbers (5.1).
#[derive(Clone, Copy)]
pub enum StatementNode {
    Null,
    Assign(Target, usize),
    If(usize, usize),
    Case(usize, usize),
    While(usize, usize),
    For(Scheme, usize, usize, usize),
    ExitWhen(usize),
    Return,
    ReturnValue(usize),
    Raise(Exception),
    Reraise,
    Call(Callee, usize, usize),
}

/// A link, and the links behind it.
#[derive(Clone, Copy)]
pub struct LinkNode {
    pub operator: Operator,
    pub operand: usize,
    pub rest: usize,
}

/// The first of a list, and the rest.
#[derive(Clone, Copy)]
pub struct ListNode {
    pub first: usize,
    pub rest: usize,
}

/// A condition with its statements, or choices with theirs, and what stands behind.
#[derive(Clone, Copy)]
pub struct BranchNode {
    pub condition: usize,
    pub statements: usize,
    pub rest: usize,
}

/// A declaration, and those behind it.
#[derive(Clone, Copy)]
pub struct DeclarationNode {
    pub target: Target,
    pub initial: usize,
    pub rest: usize,
}

/// The expression of a number.
#[tactic(auto, unfolding(rv_flat::specs::Trees::as_expression))]
#[inline(always)]
pub fn expression_at(code: &Code, number: usize) -> ExpressionNode
    ensures { as_expression (tree_at (trees code.now) number) ≡ expression_by (trees code.now) result }
{
    let Some(node) = code.node(number) else {
        return ExpressionNode::Value(0);
    };
    match node.kind {
        Kind::Value(value) => ExpressionNode::Value(value),
        Kind::Variable(slot) => ExpressionNode::Variable(slot),
        Kind::Component(index) => ExpressionNode::Component(index),
        Kind::Prefixed(prefix) => ExpressionNode::Prefixed(prefix, node.first),
        Kind::Chain => ExpressionNode::Chain(node.first, node.second),
        Kind::Within(range) => ExpressionNode::Within(range, node.first),
        Kind::Call(callee) => ExpressionNode::Call(callee, node.first),
        _ => ExpressionNode::Value(0),
    }
}

/// The statement of a number.
#[tactic(auto, unfolding(rv_flat::specs::Trees::as_statement))]
#[inline(always)]
pub fn statement_at(code: &Code, number: usize) -> StatementNode
    ensures { as_statement (tree_at (trees code.now) number) ≡ statement_by (trees code.now) result }
{
    let Some(node) = code.node(number) else {
        return StatementNode::Null;
    };
    match node.kind {
        Kind::Assign(target) => StatementNode::Assign(target, node.first),
        Kind::If => StatementNode::If(node.first, node.second),
        Kind::Case => StatementNode::Case(node.first, node.second),
        Kind::While => StatementNode::While(node.first, node.second),
        Kind::For(parameter, is_reverse, range) => {
            let scheme = Scheme {
                parameter,
                is_reverse,
                range,
            };
            StatementNode::For(scheme, node.first, node.second, node.third)
        }
        Kind::ExitWhen => StatementNode::ExitWhen(node.first),
        Kind::Return => StatementNode::Return,
        Kind::ReturnValue => StatementNode::ReturnValue(node.first),
        Kind::Raise(exception) => StatementNode::Raise(exception),
        Kind::Reraise => StatementNode::Reraise,
        Kind::CallStatement(callee) => StatementNode::Call(callee, node.first, node.second),
        _ => StatementNode::Null,
    }
}

/// The first of expressions, if there is one.
#[tactic(auto, unfolding(rv_flat::specs::Trees::as_expressions))]
#[inline(always)]
pub fn expressions_at(code: &Code, number: usize) -> Option<ListNode>
    ensures found { IfSome result (λ n. as_expressions (tree_at (trees code.now) number) ≡ and_expression (as_expression (tree_at (trees code.now) n.first)) (as_expressions (tree_at (trees code.now) n.rest))) }
    ensures none { IsNone result → as_expressions (tree_at (trees code.now) number) ≡ no_expressions }
{
    let node = code.node(number)?;
    match node.kind {
        Kind::Expressions => Some(ListNode {
            first: node.first,
            rest: node.second,
        }),
        _ => None,
    }
}

/// The first of links, if there is one.
#[tactic(auto, unfolding(rv_flat::specs::Trees::as_links))]
#[inline(always)]
pub fn links_at(code: &Code, number: usize) -> Option<LinkNode>
    ensures found { IfSome result (λ n. as_links (tree_at (trees code.now) number) ≡ and_link n.operator (as_expression (tree_at (trees code.now) n.operand)) (as_links (tree_at (trees code.now) n.rest))) }
    ensures none { IsNone result → as_links (tree_at (trees code.now) number) ≡ no_links }
{
    let node = code.node(number)?;
    match node.kind {
        Kind::Links(operator) => Some(LinkNode {
            operator,
            operand: node.first,
            rest: node.second,
        }),
        _ => None,
    }
}

/// The first of statements, if there is one.
#[tactic(auto, unfolding(rv_flat::specs::Trees::as_statements))]
#[inline(always)]
pub fn statements_at(code: &Code, number: usize) -> Option<ListNode>
    ensures found { IfSome result (λ n. as_statements (tree_at (trees code.now) number) ≡ and_statement (as_statement (tree_at (trees code.now) n.first)) (as_statements (tree_at (trees code.now) n.rest))) }
    ensures none { IsNone result → as_statements (tree_at (trees code.now) number) ≡ no_statements }
{
    let node = code.node(number)?;
    match node.kind {
        Kind::Statements => Some(ListNode {
            first: node.first,
            rest: node.second,
        }),
        _ => None,
    }
}

/// The first of branches, if there is one.
#[tactic(auto, unfolding(rv_flat::specs::Trees::as_branches))]
#[inline(always)]
pub fn branches_at(code: &Code, number: usize) -> Option<BranchNode>
    ensures found { IfSome result (λ n. as_branches (tree_at (trees code.now) number) ≡ and_branch (as_expression (tree_at (trees code.now) n.condition)) (as_statements (tree_at (trees code.now) n.statements)) (as_branches (tree_at (trees code.now) n.rest))) }
    ensures none { IsNone result → as_branches (tree_at (trees code.now) number) ≡ no_branches }
{
    let node = code.node(number)?;
    match node.kind {
        Kind::Branches => Some(BranchNode {
            condition: node.first,
            statements: node.second,
            rest: node.third,
        }),
        _ => None,
    }
}

/// The first of alternatives, if there is one: its choices stand where a branch has its condition.
#[tactic(auto, unfolding(rv_flat::specs::Trees::as_alternatives))]
pub fn alternatives_at(code: &Code, number: usize) -> Option<BranchNode>
    ensures found { IfSome result (λ n. as_alternatives (tree_at (trees code.now) number) ≡ and_alternative (as_choices (tree_at (trees code.now) n.condition)) (as_statements (tree_at (trees code.now) n.statements)) (as_alternatives (tree_at (trees code.now) n.rest))) }
    ensures none { IsNone result → as_alternatives (tree_at (trees code.now) number) ≡ no_alternatives }
{
    let node = code.node(number)?;
    match node.kind {
        Kind::Alternatives => Some(BranchNode {
            condition: node.first,
            statements: node.second,
            rest: node.third,
        }),
        _ => None,
    }
}

/// The first of declarations, if there is one.
#[tactic(auto, unfolding(rv_flat::specs::Trees::as_declarations))]
pub fn declarations_at(code: &Code, number: usize) -> Option<DeclarationNode>
    ensures found { IfSome result (λ n. as_declarations (tree_at (trees code.now) number) ≡ (record { target = n.target; initial = as_expression (tree_at (trees code.now) n.initial) }) ∷ as_declarations (tree_at (trees code.now) n.rest)) }
    ensures none { IsNone result → as_declarations (tree_at (trees code.now) number) ≡ [] }
{
    let node = code.node(number)?;
    match node.kind {
        Kind::Declarations(target) => Some(DeclarationNode {
            target,
            initial: node.first,
            rest: node.second,
        }),
        _ => None,
    }
}

/// A choice of a case alternative, and the choices behind it.
#[derive(Clone, Copy)]
pub struct ChoiceNode {
    pub choice: Choice,
    pub rest: usize,
}

/// A choice of a handler, and the choices behind it.
#[derive(Clone, Copy)]
pub struct ExceptionNode {
    pub choice: ExceptionChoice,
    pub rest: usize,
}

/// The first of choices, if there is one.
#[tactic(auto, unfolding(rv_flat::specs::Trees::as_choices))]
pub fn choices_at(code: &Code, number: usize) -> Option<ChoiceNode>
    ensures found { IfSome result (λ n. as_choices (tree_at (trees code.now) number) ≡ n.choice ∷ as_choices (tree_at (trees code.now) n.rest)) }
    ensures none { IsNone result → as_choices (tree_at (trees code.now) number) ≡ [] }
{
    let node = code.node(number)?;
    match node.kind {
        Kind::Choices(choice) => Some(ChoiceNode {
            choice,
            rest: node.first,
        }),
        _ => None,
    }
}

/// The first of a handler's choices, if there is one.
#[tactic(auto, unfolding(rv_flat::specs::Trees::as_exceptions))]
pub fn exceptions_at(code: &Code, number: usize) -> Option<ExceptionNode>
    ensures found { IfSome result (λ n. as_exceptions (tree_at (trees code.now) number) ≡ n.choice ∷ as_exceptions (tree_at (trees code.now) n.rest)) }
    ensures none { IsNone result → as_exceptions (tree_at (trees code.now) number) ≡ [] }
{
    let node = code.node(number)?;
    match node.kind {
        Kind::Exceptions(choice) => Some(ExceptionNode {
            choice,
            rest: node.first,
        }),
        _ => None,
    }
}

/// The first of handlers, if there is one: its choices stand where a branch has its condition.
#[tactic(auto, unfolding(rv_flat::specs::Trees::as_handlers))]
pub fn handlers_at(code: &Code, number: usize) -> Option<BranchNode>
    ensures found { IfSome result (λ n. as_handlers (tree_at (trees code.now) number) ≡ (record { choices = as_exceptions (tree_at (trees code.now) n.condition); statements = as_statements (tree_at (trees code.now) n.statements) }) ∷ as_handlers (tree_at (trees code.now) n.rest)) }
    ensures none { IsNone result → as_handlers (tree_at (trees code.now) number) ≡ [] }
{
    let node = code.node(number)?;
    match node.kind {
        Kind::Handlers => Some(BranchNode {
            condition: node.first,
            statements: node.second,
            rest: node.third,
        }),
        _ => None,
    }
}

/// A target of a call statement, and those behind it.
#[derive(Clone, Copy)]
pub struct TargetNode {
    pub target: Target,
    pub rest: usize,
}

/// The first of targets, if there is one.
#[tactic(auto, unfolding(rv_flat::specs::Trees::as_targets))]
pub fn targets_at(code: &Code, number: usize) -> Option<TargetNode>
    ensures found { IfSome result (λ n. as_targets (tree_at (trees code.now) number) ≡ n.target ∷ as_targets (tree_at (trees code.now) n.rest)) }
    ensures none { IsNone result → as_targets (tree_at (trees code.now) number) ≡ [] }
{
    let node = code.node(number)?;
    match node.kind {
        Kind::Targets(target) => Some(TargetNode {
            target,
            rest: node.first,
        }),
        _ => None,
    }
}
