//! Statements. Those that hold others take the function that reads these as a field.

ghost use Rattle.std.specs.Prelude.{◌≡◌, ℕ, List, [], ◌∷◌, ◌++◌, map, Ok};
ghost use Rattle.rv_lex.specs.declared.kind.Kind.TheVariants as k;
ghost use Rattle.rv_tree.specs.Statements as t;
ghost use Rattle.rv_tree.specs.NameView.{identifier_view};
ghost use Rattle.rv_tree.specs.DeclarationView.{maybe};
ghost use Rattle.rv_tree.specs.StatementView as view;
ghost use Rattle.rv_grammar.specs.Reading as spec;
ghost use Rattle.rv_grammar.specs.StatementRules as rules;
ghost use Rattle.rv_grammar.specs.Contract.{Reads, Refuses};
ghost use Rattle.rv_grammar.specs.NestsStatements.{NestsStatements};

use crate::closing::{before, closed};
use crate::cursor::Cursor;
use crate::fault::ParseFault;
use crate::held::Held;
use crate::operation::parameters;
use crate::phrase::{Phrase, listed, optional};
use crate::simple::{iteration, simple_statement};
use rv_lex::kind::Kind;
use rv_tree::{
    CaseAlternative, ElsifPart, Expression, Guard, Identifier, SelectAlternative, Statement,
};
use std::alloc::Global;

/// How many statements may be open one inside another.
pub const MAX_STATEMENTS: usize = 64;

/// The rules of a compound statement at a depth: `statement` reads one inside it (5.1).
#[derive(Clone, Copy)]
pub struct Nested<F> {
    pub alloc: Global,
    /// How many more statements may be open.
    pub depth: usize,
    pub statement: F,
}

/// Whether the next token begins a statement.
#[tactic(auto, unfolding(crate::specs::Reading::starts_by, crate::specs::Reading::kind))]
pub fn begins_statement(tokens: &Cursor<'_>) -> bool
    ensures { result ≡ rules.sees_statement tokens.now }
{
    match tokens.kind() {
        Some(
            Kind::Identifier
            | Kind::Null
            | Kind::If
            | Kind::Case
            | Kind::While
            | Kind::For
            | Kind::Loop
            | Kind::Exit
            | Kind::Return
            | Kind::Raise
            | Kind::Delay
            | Kind::Abort
            | Kind::Requeue
            | Kind::Accept
            | Kind::Select,
        ) => true,
        _ => false,
    }
}

/// A statement in which at most `depth` statements are open one inside another, itself among them.
pub fn statement(
    alloc: Global,
    tokens: &mut Cursor<'_>,
    depth: usize,
) -> Result<Statement, ParseFault>
    ensures { Reads view.statement_view (rules.statement depth tokens.old) result tokens.new }
{
    if depth == 0 {
        return Err(no_statement(tokens));
    }
    Nested {
        alloc,
        depth: depth - 1,
        statement,
    }
    .any(tokens)
}

// A statement that would be one too many, or no statement.
#[tactic(auto, unfolding(crate::specs::StatementRules::statement))]
pub(crate) fn no_statement(tokens: &Cursor<'_>) -> ParseFault
    ensures { Refuses result (rules.statement 0 tokens.now) }
{
    if begins_statement(tokens) {
        ParseFault::TooDeep(tokens.place())
    } else {
        ParseFault::Unexpected(tokens.place())
    }
}

/// `stmt {stmt}`.
pub fn statements(alloc: Global, tokens: &mut Cursor<'_>) -> Result<Vec<Statement>, ParseFault>
    ensures { Reads (λ v. view.statements_view v.items) (rules.statements (rules.statement 64) tokens.old) result tokens.new }
{
    Nested {
        alloc,
        depth: MAX_STATEMENTS,
        statement,
    }
    .statements(tokens)
}

impl<F: Fn(Global, &mut Cursor<'_>, usize) -> Result<Statement, ParseFault>> Nested<F> {
    fn inner(&self, tokens: &mut Cursor<'_>) -> Result<Statement, ParseFault>
        requires { NestsStatements self.now.depth (F.pre self.now.statement) (F.post self.now.statement) }
        ensures { Reads view.statement_view (rules.statement self.now.depth tokens.old) result tokens.new }
    {
        (self.statement)(self.alloc, tokens, self.depth)
    }

    // stmt {stmt}
    fn statements(&self, tokens: &mut Cursor<'_>) -> Result<Vec<Statement>, ParseFault>
        requires { NestsStatements self.now.depth (F.pre self.now.statement) (F.post self.now.statement) }
        ensures { Reads (λ v. view.statements_view v.items) (rules.statements (rules.statement self.now.depth) tokens.old) result tokens.new }
    {
        let mut found = Vec::new(self.alloc);
        found.push(self.inner(tokens)?)?;
        'each: for _turn in 0..tokens.len() {
            if !begins_statement(tokens) {
                return Ok(found);
            }
            found.push(self.inner(tokens)?)?;
        }
        Ok(found)
    }

    // [word stmts]
    #[tactic(auto, unfolding(crate::specs::StatementRules::statements_after))]
    fn statements_after(
        &self,
        tokens: &mut Cursor<'_>,
        word: Kind,
    ) -> Result<Vec<Statement>, ParseFault>
        requires { NestsStatements self.now.depth (F.pre self.now.statement) (F.post self.now.statement) }
        ensures { Reads (λ v. view.statements_view v.items) (rules.statements_after (rules.statement self.now.depth) word tokens.old) result tokens.new }
    {
        if tokens.eat(word) {
            self.statements(tokens)
        } else {
            Ok(Vec::new(self.alloc))
        }
    }

    // "elsif" expr "then" stmts
    #[tactic(auto, using(crate::proofs::Views::elsif_part_is), unfolding(crate::specs::StatementRules::elsif_part))]
    fn elsif_part(&self, tokens: &mut Cursor<'_>) -> Result<ElsifPart, ParseFault>
        requires { NestsStatements self.now.depth (F.pre self.now.statement) (F.post self.now.statement) }
        ensures { Reads view.elsif_part_view (rules.elsif_part (rules.statement self.now.depth) tokens.old) result tokens.new }
    {
        let at = tokens.expect(Kind::Elsif)?;
        let condition = Held::new(Expression::read(self.alloc, tokens)?);
        tokens.expect(Kind::Then)?;
        let statements = self.statements(tokens)?;
        Ok(ElsifPart {
            at,
            condition: condition.take(),
            statements,
        })
    }

    fn elsif_parts(&self, tokens: &mut Cursor<'_>) -> Result<Vec<ElsifPart>, ParseFault>
        requires { NestsStatements self.now.depth (F.pre self.now.statement) (F.post self.now.statement) }
        ensures { Reads (λ v. view.elsif_parts_view v.items) (rules.elsif_parts (rules.statement self.now.depth) tokens.old) result tokens.new }
    {
        let mut found = Vec::new(self.alloc);
        'each: for _turn in 0..tokens.len() {
            if !tokens.sees(Kind::Elsif) {
                return Ok(found);
            }
            found.push(self.elsif_part(tokens)?)?;
        }
        Ok(found)
    }

    // "if" expr "then" stmts {"elsif" expr "then" stmts} ["else" stmts] "end" "if" ";"
    #[tactic(auto, unfolding(crate::specs::StatementRules::if_statement))]
    fn if_statement(&self, tokens: &mut Cursor<'_>) -> Result<Statement, ParseFault>
        requires { NestsStatements self.now.depth (F.pre self.now.statement) (F.post self.now.statement) }
        ensures { Reads view.statement_view (rules.if_statement (rules.statement self.now.depth) tokens.old) result tokens.new }
    {
        let at = tokens.expect(Kind::If)?;
        let condition = Held::new(Expression::read(self.alloc, tokens)?);
        tokens.expect(Kind::Then)?;
        let statements = self.statements(tokens)?;
        let elsif_parts = self.elsif_parts(tokens)?;
        let else_statements = self.statements_after(tokens, Kind::Else)?;
        let read = Statement::If {
            at,
            condition: condition.take(),
            statements,
            elsif_parts,
            else_statements,
        };
        closed(tokens, Kind::If, read)
    }

    // "when" alt {"|" alt} "=>" stmts
    #[tactic(auto, using(crate::proofs::Views::alternative_is), unfolding(crate::specs::StatementRules::alternative))]
    fn alternative(&self, tokens: &mut Cursor<'_>) -> Result<CaseAlternative, ParseFault>
        requires { NestsStatements self.now.depth (F.pre self.now.statement) (F.post self.now.statement) }
        ensures { Reads view.alternative_view (rules.alternative (rules.statement self.now.depth) tokens.old) result tokens.new }
    {
        let at = tokens.expect(Kind::When)?;
        let choices = listed(self.alloc, tokens, Kind::Bar)?;
        tokens.expect(Kind::Arrow)?;
        let statements = self.statements(tokens)?;
        Ok(CaseAlternative {
            at,
            choices,
            statements,
        })
    }

    fn alternatives(&self, tokens: &mut Cursor<'_>) -> Result<Vec<CaseAlternative>, ParseFault>
        requires { NestsStatements self.now.depth (F.pre self.now.statement) (F.post self.now.statement) }
        ensures { Reads (λ v. view.alternatives_view v.items) (rules.alternatives (rules.statement self.now.depth) tokens.old) result tokens.new }
    {
        let mut found = Vec::new(self.alloc);
        'each: for _turn in 0..tokens.len() {
            if !tokens.sees(Kind::When) {
                return Ok(found);
            }
            found.push(self.alternative(tokens)?)?;
        }
        Ok(found)
    }

    // "case" expr "is" {alternative} "end" "case" ";"
    #[tactic(auto, unfolding(crate::specs::StatementRules::case_statement))]
    fn case_statement(&self, tokens: &mut Cursor<'_>) -> Result<Statement, ParseFault>
        requires { NestsStatements self.now.depth (F.pre self.now.statement) (F.post self.now.statement) }
        ensures { Reads view.statement_view (rules.case_statement (rules.statement self.now.depth) tokens.old) result tokens.new }
    {
        let at = tokens.expect(Kind::Case)?;
        let selector = Held::new(Expression::read(self.alloc, tokens)?);
        tokens.expect(Kind::Is)?;
        let alternatives = self.alternatives(tokens)?;
        let read = Statement::Case {
            at,
            selector: selector.take(),
            alternatives,
        };
        closed(tokens, Kind::Case, read)
    }

    // iteration "loop" stmts "end" "loop" ";"
    #[tactic(auto, unfolding(crate::specs::StatementRules::loop_statement))]
    fn loop_statement(&self, tokens: &mut Cursor<'_>) -> Result<Statement, ParseFault>
        requires { NestsStatements self.now.depth (F.pre self.now.statement) (F.post self.now.statement) }
        ensures { Reads view.statement_view (rules.loop_statement (rules.statement self.now.depth) tokens.old) result tokens.new }
    {
        let at = tokens.at();
        let iteration = Held::new(iteration(self.alloc, tokens)?);
        let statements = self.statements(tokens)?;
        let read = Statement::Loop {
            at,
            iteration: iteration.take(),
            statements,
        };
        closed(tokens, Kind::Loop, read)
    }

    // "accept" id [params] ["do" stmts "end" [id]] ";"
    #[tactic(auto, unfolding(crate::specs::StatementRules::accept_statement))]
    fn accept_statement(&self, tokens: &mut Cursor<'_>) -> Result<Statement, ParseFault>
        requires { NestsStatements self.now.depth (F.pre self.now.statement) (F.post self.now.statement) }
        ensures { Reads view.statement_view (rules.accept_statement (rules.statement self.now.depth) tokens.old) result tokens.new }
    {
        let at = tokens.expect(Kind::Accept)?;
        let entry = Identifier::read(self.alloc, tokens)?;
        let parameters = parameters(self.alloc, tokens)?;
        let (statements, end_name) = self.accept_body(tokens)?;
        let read = Statement::Accept {
            at,
            entry,
            parameters,
            statements,
            end_name,
        };
        before(tokens, Kind::Semicolon, read)
    }

    // ["do" stmts "end" [id]]
    #[tactic(auto, unfolding(crate::specs::StatementRules::accept_body))]
    fn accept_body(
        &self,
        tokens: &mut Cursor<'_>,
    ) -> Result<(Vec<Statement>, Option<Identifier>), ParseFault>
        requires { NestsStatements self.now.depth (F.pre self.now.statement) (F.post self.now.statement) }
        ensures { Reads (λ p. (view.statements_view p.0.items, maybe identifier_view p.1)) (rules.accept_body (rules.statement self.now.depth) tokens.old) result tokens.new }
    {
        if !tokens.eat(Kind::Do) {
            return Ok((Vec::new(self.alloc), None));
        }
        let statements = self.statements(tokens)?;
        tokens.expect(Kind::End)?;
        let end_name = optional(self.alloc, tokens)?;
        Ok((statements, end_name))
    }

    // ["when" expr "=>"] (stmts | "terminate" ";")
    #[tactic(auto, unfolding(crate::specs::StatementRules::selective))]
    fn selective(&self, tokens: &mut Cursor<'_>) -> Result<SelectAlternative, ParseFault>
        requires { NestsStatements self.now.depth (F.pre self.now.statement) (F.post self.now.statement) }
        ensures { Reads view.selective_view (rules.selective (rules.statement self.now.depth) tokens.old) result tokens.new }
    {
        let guard = Held::new(optional(self.alloc, tokens)?);
        if tokens.sees(Kind::Terminate) {
            let at = tokens.expect(Kind::Terminate)?;
            tokens.expect(Kind::Semicolon)?;
            return Ok(SelectAlternative::Terminate(guard.take(), at));
        }
        let statements = self.statements(tokens)?;
        Ok(SelectAlternative::Statements(guard.take(), statements))
    }

    // sel {"or" sel}
    fn selectives(&self, tokens: &mut Cursor<'_>) -> Result<Vec<SelectAlternative>, ParseFault>
        requires { NestsStatements self.now.depth (F.pre self.now.statement) (F.post self.now.statement) }
        ensures { Reads (λ v. view.selectives_view v.items) (rules.selectives (rules.statement self.now.depth) tokens.old) result tokens.new }
    {
        let mut found = Vec::new(self.alloc);
        'each: for _turn in 0..tokens.len() {
            found.push(self.selective(tokens)?)?;
            if !tokens.eat(Kind::Or) {
                return Ok(found);
            }
        }
        Err(ParseFault::Unexpected(tokens.place()))
    }

    // ["then" "abort" stmts]
    #[tactic(auto, unfolding(crate::specs::StatementRules::then_abort))]
    fn then_abort(&self, tokens: &mut Cursor<'_>) -> Result<Vec<Statement>, ParseFault>
        requires { NestsStatements self.now.depth (F.pre self.now.statement) (F.post self.now.statement) }
        ensures { Reads (λ v. view.statements_view v.items) (rules.then_abort (rules.statement self.now.depth) tokens.old) result tokens.new }
    {
        if !tokens.eat(Kind::Then) {
            return Ok(Vec::new(self.alloc));
        }
        tokens.expect(Kind::Abort)?;
        self.statements(tokens)
    }

    // "select" sel {"or" sel} ["else" stmts] ["then" "abort" stmts] "end" "select" ";"
    #[tactic(auto, unfolding(crate::specs::StatementRules::select_statement))]
    fn select_statement(&self, tokens: &mut Cursor<'_>) -> Result<Statement, ParseFault>
        requires { NestsStatements self.now.depth (F.pre self.now.statement) (F.post self.now.statement) }
        ensures { Reads view.statement_view (rules.select_statement (rules.statement self.now.depth) tokens.old) result tokens.new }
    {
        let at = tokens.expect(Kind::Select)?;
        let alternatives = self.selectives(tokens)?;
        let else_statements = self.statements_after(tokens, Kind::Else)?;
        let abort_statements = self.then_abort(tokens)?;
        let read = Statement::Select {
            at,
            alternatives,
            else_statements,
            abort_statements,
        };
        closed(tokens, Kind::Select, read)
    }

    /// A statement of any kind.
    #[tactic(auto, unfolding(crate::specs::StatementRules::any_statement, crate::specs::Reading::kind))]
    pub fn any(&self, tokens: &mut Cursor<'_>) -> Result<Statement, ParseFault>
        requires { NestsStatements self.now.depth (F.pre self.now.statement) (F.post self.now.statement) }
        ensures { Reads view.statement_view (rules.any_statement (rules.statement self.now.depth) tokens.old) result tokens.new }
    {
        match tokens.kind() {
            Some(Kind::If) => self.if_statement(tokens),
            Some(Kind::Case) => self.case_statement(tokens),
            Some(Kind::While | Kind::For | Kind::Loop) => self.loop_statement(tokens),
            Some(Kind::Accept) => self.accept_statement(tokens),
            Some(Kind::Select) => self.select_statement(tokens),
            Some(
                Kind::Identifier
                | Kind::Null
                | Kind::Exit
                | Kind::Return
                | Kind::Raise
                | Kind::Delay
                | Kind::Abort
                | Kind::Requeue,
            ) => simple_statement(self.alloc, tokens),
            _ => Err(ParseFault::Unexpected(tokens.place())),
        }
    }
}
