//! Laws of trees, each on a function that does nothing.

ghost use Rattle.std.specs.Prelude.{List};
ghost use Rattle.rv_lex.specs.Lexes.{Lexeme};
ghost use Rattle.rv_tree.specs.Bodies.{Local};
ghost use Rattle.rv_tree.specs.BodyGrammar.{IsLocal};
ghost use Rattle.rv_tree.specs.Declarations.{Declaration};
ghost use Rattle.rv_tree.specs.DeclarationGrammar.{IsDeclaration};
ghost use Rattle.rv_tree.specs.Expressions.{Expression};
ghost use Rattle.rv_tree.specs.ExpressionGrammar.{IsExpression};
ghost use Rattle.rv_tree.specs.Statements.{Statement};
ghost use Rattle.rv_tree.specs.StatementGrammar.{IsStatement};
ghost use Rattle.rv_tree.specs.Places.{BeginsAt, expression_place, statement_place, declaration_place, local_place};

/// What derives a node begins with a word at the node's place.
#[tactic(auto, using(crate::proofs::Begins::expression_begins, crate::proofs::Begins::statement_begins, crate::proofs::Begins::declaration_begins, crate::proofs::Begins::local_begins))]
pub fn nodes_begin_at_their_places()
    ensures expressions { (e : Expression) (old new : List Lexeme) → IsExpression e old new → BeginsAt (expression_place e) old }
    ensures statements { (s : Statement) (old new : List Lexeme) → IsStatement s old new → BeginsAt (statement_place s) old }
    ensures declarations { (d : Declaration) (old new : List Lexeme) → IsDeclaration d old new → BeginsAt (declaration_place d) old }
    ensures locals { (l : Local) (old new : List Lexeme) → IsLocal l old new → BeginsAt (local_place l) old }
{}
