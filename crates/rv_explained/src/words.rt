//! Words that several lines have.

ghost use Rattle.std.specs.Prelude.{◌≡◌, ◌==◌, ◌++◌, IfOk, codes, if◌then◌else◌, option_copied, string_bytes};
ghost use Rattle.rv_event.specs.Text.{rule_number};
ghost use Rattle.rv_refused.specs.Refusals.{cause_text, line_words};
ghost use Rattle.rv_explained.specs.Words.{force_text, rule_text, section, since_text};

use rv_access::Line;
use rv_event::entry::Rule;
use std::alloc::{AllocError, Global};

/// The words of a line of a list, or that there is none. Err where memory was refused.
pub fn line_words(alloc: Global, line: Option<&Line>) -> Result<String, AllocError>
    ensures { IfOk result (λ words. string_bytes words ≡ line_words (option_copied line.entry)) }
{
    match line {
        Some(line) => line.text(alloc),
        None => String::from_str(alloc, "no line"),
    }
}

/// Which list decided: the one that the entry of this number brought. Err where memory was refused.
pub fn since_text(alloc: Global, number: usize) -> Result<String, AllocError>
    ensures { IfOk result (λ text. string_bytes text ≡ since_text number) }
{
    if number == 0 {
        return String::from_str(alloc, "before any list");
    }
    format!(in alloc; "in the list since entry {number}")
}

/// Which list is in force: its version, and the entry that brought it. Err where memory was refused.
pub fn force_text(alloc: Global, version: usize, number: usize) -> Result<String, AllocError>
    ensures { IfOk result (λ text. string_bytes text ≡ force_text version number) }
{
    if number == 0 {
        return String::from_str(alloc, "no list");
    }
    format!(in alloc; "list version {version} since entry {number}")
}

// The section of the standard that a rule is of.
fn section(rule: Rule) -> &'static str
    ensures { result.now ≡ section rule }
{
    match rule {
        Rule::Grant => "own",
        Rule::Blocking => "9.5.1, H.5",
        Rule::Reentry => "9.5.1, H.5",
        Rule::Ceiling => "D.3",
        Rule::Queue => "D.7",
        Rule::Waiter => "D.10",
    }
}

// What a rule other than the grant says was wrong.
fn cause(rule: Rule) -> &'static str
    ensures { result.now ≡ cause_text rule (codes "") }
{
    match rule {
        Rule::Grant => "not granted: ",
        Rule::Blocking => "might block inside a protected action",
        Rule::Reentry => "holds the object already",
        Rule::Ceiling => "above the ceiling",
        Rule::Queue => "the queue is full",
        Rule::Waiter => "another task waits there",
    }
}

/// A rule in words, with its section of the standard. Err where memory was refused.
pub fn rule_text(alloc: Global, rule: Rule) -> Result<String, AllocError>
    ensures { IfOk result (λ text. string_bytes text ≡ rule_text rule) }
{
    let number = rule.number();
    let section = section(rule);
    let cause = cause(rule);
    format!(in alloc; "rule {number} ({section}): {cause}\n")
}
