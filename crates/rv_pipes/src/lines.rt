//! The lines of a pipe, each bounded.

ghost use Rattle.std.specs.Prelude.{◌≡◌, ◌≢◌, ◌++◌, ◌∷◌, [], true, false, All, IfOk, IfSome};
ghost use Rattle.std.specs.Io.{StopsAt};
ghost use Rattle.std.specs.Io.Take.{take_inner};
ghost use Rattle.rv_pipes.specs.Lines.{next_bytes};
ghost use Rattle.rv_pipes.specs.Reads.{ReadsNext};

use crate::line::{Line, add};
use std::alloc::Global;
use std::io;
use std::io::{BufRead, Take};

/// How many bytes a line has at most, with its line feed.
pub const MOST_BYTES: u64 = 4096;

/// What comes of a pipe.
#[derive(Drop)]
pub(crate) enum Next {
    /// A line.
    Line(Line),
    /// A line that is too long, which was passed over.
    TooLong,
    /// Its end.
    Over,
}

// What stands before a line's feed, and whether it has one.
struct Piece {
    words: Vec<u8>,
    is_fed: bool,
}

// Reads on, up to a line feed, the greatest length, or the end.
#[tactic(auto, using(crate::proofs::Read::stops_whole))]
fn read_on<I: BufRead>(alloc: Global, reader: &mut Take<I>) -> io::Result<Vec<u8>>
    ensures stops { IfOk result (λ line. StopsAt line.items 10) }
    ensures known { IfOk result (λ line. IfSome (I.remaining (take_inner reader.old)) (λ xs. line.items ≡ next_bytes xs)) }
{
    let mut line = Vec::new(alloc);
    reader.set_limit(MOST_BYTES);
    reader.read_until(b'\n', &mut line)?;
    Ok(line)
}

// Takes a line's feed off, if it has one.
#[tactic(auto, using(crate::proofs::Read::before_last, crate::proofs::Read::all_before))]
fn piece_of(line: Vec<u8>) -> io::Result<Piece>
    requires { StopsAt line.items 10 }
    ensures words { IfOk result (λ piece. All (λ x. x ≢ 10) piece.words.items) }
    ensures fed { IfOk result (λ piece. piece.is_fed ≡ true → line.items ≡ piece.words.items ++ 10 ∷ []) }
    ensures unfed { IfOk result (λ piece. piece.is_fed ≡ false → line.items ≡ piece.words.items) }
{
    let mut words = line;
    match words.pop() {
        Some(b'\n') => Ok(Piece {
            words,
            is_fed: true,
        }),
        Some(byte) => {
            add(&mut words, byte)?;
            Ok(Piece {
                words,
                is_fed: false,
            })
        }
        None => Ok(Piece {
            words,
            is_fed: false,
        }),
    }
}

// Passes over what is left of a line.
fn pass_over<I: BufRead>(alloc: Global, reader: &mut Take<I>) -> io::Result<()> {
    // No pipe gives so much: the bound says that the loop ends.
    for _ in 0..u64::MAX {
        let part = read_on(alloc, reader)?;
        if part.len() == 0 || part.ends_with(b"\n") {
            return Ok(());
        }
    }
    Ok(())
}

/// The next line. The last has a line feed put behind it where it has none.
#[tactic(auto, using(crate::proofs::Read::line_next))]
pub(crate) fn next_line<I: BufRead>(alloc: Global, reader: &mut Take<I>) -> io::Result<Next>
    ensures { ReadsNext (I.remaining (take_inner reader.old)) result }
{
    let line = read_on(alloc, reader)?;
    if line.len() == 0 {
        return Ok(Next::Over);
    }
    let Piece { words, is_fed } = piece_of(line)?;
    if !is_fed && words.len() as u64 >= MOST_BYTES {
        pass_over(alloc, reader)?;
        return Ok(Next::TooLong);
    }
    let line = Line::of_words(words)?;
    Ok(Next::Line(line))
}
