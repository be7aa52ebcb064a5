//! The table of a unit's code.

ghost use Rattle.std.specs.Prelude.{◌≡◌, ◌≤◌, ◌-◌, Some, None, [], IfOk, IfSome, IsNone, length};
ghost use Rattle.rv_flat.specs.Trees.{IsBackward, IsAdded, IsTable, trees_of, tree_at, tree_of};

use rv_code::{Callee, Choice, ExceptionChoice, Operator, Prefix, Target};
use rv_event::entry::Exception;
use rv_shape::kind::Range;
use std::alloc::{AllocError, Global};

/// What a node of the table is. Its children are named in their order.
#[derive(Clone, Copy)]
pub enum Kind {
    /// A literal, or what a static expression gives (4.9).
    Value(i64),
    /// A parameter, a variable, a constant or a loop parameter, by its slot.
    Variable(usize),
    /// A component of the protected object, by its index from 0.
    Component(usize),
    /// An operator before its operand.
    Prefixed(Prefix),
    /// A first operand, and the links behind it.
    Chain,
    /// A value that must lie in the range.
    Within(Range),
    /// The value of a call, with its arguments.
    Call(Callee),
    /// An expression of a list, and those behind it.
    Expressions,
    /// The operand of a link, and the links behind it.
    Links(Operator),
    /// `null;` (5.1).
    Null,
    /// The value that a target takes (5.2).
    Assign(Target),
    /// The branches of an `if`, and the statements behind `else` (5.3).
    If,
    /// A selector and its alternatives (5.4).
    Case,
    /// The condition of a `while` and the statements of the loop (5.5).
    While,
    /// The two bounds of a `for` and the statements of the loop, by the slot of its parameter, whether it goes
    /// `reverse`, and the range of its bounds (5.5).
    For(usize, bool, Range),
    /// The condition of `exit when` (5.7).
    ExitWhen,
    /// `return;` (6.5).
    Return,
    /// The value of a `return` (6.5).
    ReturnValue,
    /// `raise` with a name (11.3).
    Raise(Exception),
    /// `raise;` (11.3).
    Reraise,
    /// The arguments of a call as a statement, and its targets (6.4.1).
    CallStatement(Callee),
    /// A statement, and those behind it (5.1).
    Statements,
    /// The condition of a branch, its statements, and the branches behind it (5.3).
    Branches,
    /// The choices of an alternative, its statements, and the alternatives behind it (5.4).
    Alternatives,
    /// The choices behind a choice (3.8.1).
    Choices(Choice),
    /// The targets behind a target (6.4.1).
    Targets(Target),
    /// The initial value of a declaration, and the declarations behind it (3.3.1).
    Declarations(Target),
    /// The choices of a handler, its statements, and the handlers behind it (11.2).
    Handlers,
    /// The choices of a handler behind a choice (11.2).
    Exceptions(ExceptionChoice),
}

/// A node, with the numbers of its children, which stand before it in the table: they count from 1, and 0 is none.
#[derive(Clone, Copy)]
pub struct Node {
    pub kind: Kind,
    pub first: usize,
    pub second: usize,
    pub third: usize,
}

/// The table.
#[derive(Drop)]
pub struct Code {
    nodes: Vec<Node>,
    ghost backward: { IsTable nodes.items },
}

impl Code {
    /// The table without nodes.
    pub fn new(alloc: Global) -> Code
        ensures { trees_of result.nodes.items ≡ [] }
    {
        Code {
            nodes: Vec::new(alloc),
        }
    }

    #[tactic(auto, using(crate::proofs::Tables::table_more, crate::proofs::Tables::added))]
    /// Adds a node whose children stand in the table already, and gives its number. Err where memory was refused.
    pub fn add(&mut self, node: Node) -> Result<usize, AllocError>
        requires { IsBackward (length (trees_of self.old.nodes.items)) node }
        ensures { IfOk result (λ number. IsAdded (trees_of self.old.nodes.items) node (trees_of self.new.nodes.items) number) }
    {
        self.nodes.reserve(1)?;
        self.nodes.push_reserved(node);
        Ok(self.nodes.len())
    }

    /// Adds a node without children.
    pub fn leaf(&mut self, kind: Kind) -> Result<usize, AllocError>
        ensures { IfOk result (λ number. IsAdded (trees_of self.old.nodes.items) (record { kind = kind; first = 0; second = 0; third = 0 }) (trees_of self.new.nodes.items) number) }
    {
        self.add(Node {
            kind,
            first: 0,
            second: 0,
            third: 0,
        })
    }

    /// Adds a node with one child.
    pub fn one(&mut self, kind: Kind, first: usize) -> Result<usize, AllocError>
        requires { first ≤ length (trees_of self.old.nodes.items) }
        ensures { IfOk result (λ number. IsAdded (trees_of self.old.nodes.items) (record { kind = kind; first = first; second = 0; third = 0 }) (trees_of self.new.nodes.items) number) }
    {
        self.add(Node {
            kind,
            first,
            second: 0,
            third: 0,
        })
    }

    /// Adds a node with two children.
    pub fn two(&mut self, kind: Kind, first: usize, second: usize) -> Result<usize, AllocError>
        requires first { first ≤ length (trees_of self.old.nodes.items) }
        requires second { second ≤ length (trees_of self.old.nodes.items) }
        ensures { IfOk result (λ number. IsAdded (trees_of self.old.nodes.items) (record { kind = kind; first = first; second = second; third = 0 }) (trees_of self.new.nodes.items) number) }
    {
        self.add(Node {
            kind,
            first,
            second,
            third: 0,
        })
    }

    /// Adds a node with three children.
    pub fn three(
        &mut self,
        kind: Kind,
        first: usize,
        second: usize,
        third: usize,
    ) -> Result<usize, AllocError>
        requires first { first ≤ length (trees_of self.old.nodes.items) }
        requires second { second ≤ length (trees_of self.old.nodes.items) }
        requires third { third ≤ length (trees_of self.old.nodes.items) }
        ensures { IfOk result (λ number. IsAdded (trees_of self.old.nodes.items) (record { kind = kind; first = first; second = second; third = third }) (trees_of self.new.nodes.items) number) }
    {
        self.add(Node {
            kind,
            first,
            second,
            third,
        })
    }

    #[tactic(auto, using(crate::proofs::Tables::read, crate::proofs::Tables::read_past, crate::proofs::Tables::read_backward))]
    /// The node of a number, or `None` where there is none. Its children have smaller numbers.
    pub fn node(&self, number: usize) -> Option<Node>
        ensures found { IfSome result (λ node. tree_at (trees_of self.now.nodes.items) number ≡ Some (tree_of (trees_of self.now.nodes.items) node)) }
        ensures none { IsNone result → tree_at (trees_of self.now.nodes.items) number ≡ None }
        ensures backward { IfSome result (λ node. IsBackward (number - 1) node) }
    {
        if number < 1 {
            return None;
        }
        let index = number - 1;
        if index < self.nodes.len() {
            Some(self.nodes[index])
        } else {
            None
        }
    }
}
