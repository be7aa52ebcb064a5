//! Cuts a text into its words.

ghost use Rattle.std.specs.Prelude.{◌≡◌, ◌⊎◌, ◌+◌, ◌<◌, List, length, take, drop, IfOk, IfErr};
ghost use Rattle.std.specs.Str.{IsUtf8};
ghost use Rattle.rv_lex.specs.Front as spec;
ghost use Rattle.rv_lex.specs.Lexes.{Lexeme, Lexes, HasNoWords, IsNoMemory, Refuses};
ghost use Rattle.rv_lex.specs.Words.{AllStand};

use crate::fault::{LexFault, WordFault};
use crate::front::{gap, word};
use crate::kind::Kind;
use crate::token::{Token, Tokens};
use std::alloc::Global;

// A word and what follows it.
#[derive(Drop)]
struct Cut<'a> {
    kind: Kind,
    text: &'a str,
    after: &'a str,
}

// The word behind a gap of that many bytes.
fn take_word(rest: &str, skipped: usize) -> Result<Cut<'_>, WordFault>
    requires { skipped < length rest.now }
    ensures fault { IfErr result (λ fault. spec.word (drop skipped rest.now) ≡ Err fault) }
    ensures word { IfOk result
        (λ c. spec.word (drop skipped rest.now) ≡ Ok (c.kind, length c.text.now)) }
    ensures text { IfOk result
        (λ c. c.text.now ≡ take (length c.text.now) (drop skipped rest.now)) }
    ensures after { IfOk result
        (λ c. c.after.now ≡ drop (length c.text.now) (drop skipped rest.now)) }
    ensures utf8 { IfOk result (λ c. IsUtf8 c.after.now) }
    ensures moves { IfOk result (λ c. 0 < length c.text.now) }
    ensures all { IfOk result
        (λ c. skipped + length c.text.now + length c.after.now ≡ length rest.now) }
{
    let (_, here) = rest.as_bytes().split_at(skipped);
    let (kind, len) = word(here)?;
    let (_, here) = rest.split_at(skipped);
    let (text, after) = here.split_at(len);
    Ok(Cut { kind, text, after })
}

/// The words of the text, or its first fault: only separators and comments stand between them.
pub fn tokens<'a>(alloc: Global, text: &'a str) -> Result<Tokens<'a>, LexFault>
    ensures words { IfOk result (λ found. Lexes text.now found) }
    ensures only { IfOk result (λ found. (ts : List Lexeme) → Lexes text.now ts → ts ≡ found) }
    ensures stand { IfOk result (λ found. AllStand text.now found) }
    ensures fault { IfErr result (λ fault. Refuses text.now fault) }
    ensures none { IfErr result (λ fault. IsNoMemory fault ⊎ HasNoWords text.now) }
{
    let mut found = Tokens::new(alloc);
    let mut rest = text;
    let mut place = 0;
    'words: loop {
        let skipped = gap(rest.as_bytes());
        if skipped == rest.len() {
            return Ok(found);
        }
        let word = match take_word(rest, skipped) {
            Ok(word) => word,
            Err(fault) => return Err(fault.at(place + skipped)),
        };
        found.push(Token {
            kind: word.kind,
            text: word.text,
            place: place + skipped,
        })?;
        rest = word.after;
        place = place + skipped + word.text.len();
    }
}
