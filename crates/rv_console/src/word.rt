//! The words that the console has of its own.

ghost use Rattle.std.specs.Prelude.{◌≡◌, ℕ, List};
ghost use Rattle.rv_console.specs.Console.{page_of, single, word_of};
ghost use Rattle.rv_shell.specs.Orders.{IsRead, order_of};
ghost use Rattle.rv_text.specs.Words.{words};

use rv_shell::Order;
use rv_step::reading::StepError;
use rv_text::next_word;

/// What a line asks of the console.
#[derive(Clone, Copy, Drop)]
pub enum Word {
    /// Nothing: the line is blank.
    Blank,
    /// What may be asked.
    Help,
    /// The list in force.
    Lines,
    /// What the host is at.
    Status,
    /// The next page of the journal.
    Journal,
    /// The page of the journal that begins with the entry of this number.
    Page(usize),
}

// What one word asks.
fn single(word: &str) -> Option<Word>
    ensures { result ≡ single word.now }
{
    if word == "help" {
        return Some(Word::Help);
    }
    if word == "list" {
        return Some(Word::Lines);
    }
    if word == "status" {
        return Some(Word::Status);
    }
    if word == "journal" {
        return Some(Word::Journal);
    }
    None
}

// The page that a command asks for, if it does.
#[tactic(auto, using(crate::proofs::Paging::read_page))]
fn page_of(read: &Result<Order, StepError>) -> Option<Word>
    ensures { (words : List (List ℕ)) → IsRead words read.now → result ≡ page_of (order_of words) }
{
    match read {
        Ok(Order::Journal(from)) => Some(Word::Page(*from)),
        _ => None,
    }
}

/// What a line asks of the console, if it does; as a command it was read so (`order_of`).
pub fn word_of(line: &str, read: &Result<Order, StepError>) -> Option<Word>
    ensures { IsRead (words line.now) read.now → result ≡ word_of (words line.now) }
{
    let Some((word, rest)) = next_word(line) else {
        return Some(Word::Blank);
    };
    match next_word(rest) {
        Some(_) => page_of(read),
        None => single(word),
    }
}
