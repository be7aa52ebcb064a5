//! Whole unit texts.

ghost use Rattle.std.specs.Prelude.{◌≡◌, IfOk};
ghost use Rattle.rv_tree.specs.Units as t;
ghost use Rattle.rv_tree.specs.UnitView as view;
ghost use Rattle.rv_tree.specs.Derives.{Derives};
ghost use Rattle.rv_grammar.specs.Words.{ReadsTree};
ghost use Rattle.rv_parse.specs.Texts.{OfWords, OfDepth, words_fault as spec_fault};

use rv_grammar::{ParseFault, read_words};
use rv_lex::fault::LexFault;
use rv_lex::lexer::tokens;
use rv_tree::UnitTree;
use std::alloc::Global;

fn words_fault(fault: LexFault) -> ParseFault
    ensures { result ≡ spec_fault fault }
{
    match fault {
        LexFault::NoMemory => ParseFault::NoMemory,
        _ => ParseFault::Lex(fault),
    }
}

/// The one tree that the text derives.
///
/// # Errors
/// `Lex` is the first fault of the text's words. `Unexpected` names the first token after which no text of the grammar
/// can go on, `TooDeep` the 65th statement or parenthesis that is open: of the two the one that comes first.
pub fn parse(alloc: Global, text: &str) -> Result<UnitTree, ParseFault>
    // What is read derives the text.
    ensures sound { IfOk result (λ tree. Derives text.now (view.unit_view tree)) }
    // What derives the text is read, but for want of memory and depth; so it is the only one.
    ensures complete { (tree : t.UnitTree) → Derives text.now tree → ReadsTree tree result }
    // A fault of words is the first of the text's words, and comes before any of the grammar.
    ensures words { OfWords text.now result }
    // Depth is refused only where too many statements or parentheses are open one inside another.
    ensures deep { OfDepth text.now result }
{
    match tokens(alloc, text) {
        Ok(words) => read_words(alloc, words.as_slice(), text.len()),
        Err(fault) => Err(words_fault(fault)),
    }
}
