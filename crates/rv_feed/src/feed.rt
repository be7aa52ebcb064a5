//! The end that waits for an input.

ghost use Rattle.std.specs.Prelude.{◌≡◌, false, true};
ghost use Rattle.rv_feed.specs.Hearing.{Hears, IsLost, Takes, Waits, heard};
ghost use Rattle.rv_feed.specs.Order.{IsOver};

use crate::pair::Feed;
use crate::piece::Piece;
use crate::rule::Goes;
use crossbeam_channel::TryRecvError;
use rv_input::{Input, InputFault};
use std::io;
use std::io::ErrorKind;
use std::sync::Wait;
use std::time::{Clock, Duration};

/// What was found of an input.
#[derive(Clone, Copy, Debug, PartialEq, Eq, Drop)]
pub enum Came {
    /// Bytes came.
    Bytes,
    /// None yet.
    Nothing,
    /// The input is over.
    Over,
}

// Who reads the input is gone, and hasn't told its end.
fn lost() -> InputFault
    ensures { IsLost result }
{
    InputFault::Io(io::Error::from(ErrorKind::UnexpectedEof))
}

impl Feed {
    // The next piece, if one came.
    fn look<R: Wait>(&mut self, rt: &R) -> Result<Piece, TryRecvError>
        requires { self.now.is_over ≡ false }
        ensures takes { Takes (heard self.old) (heard self.new) result }
        ensures same { self.new.is_over ≡ self.old.is_over }
    {
        self.pieces.try_recv_as::<Goes, R>(rt, &mut self.pass)
    }

    // The next piece, for which it waits at most a while.
    fn next<R: Wait + Clock>(&mut self, rt: &R, most: Duration) -> Result<Piece, TryRecvError>
        requires { self.now.is_over ≡ false }
        ensures takes { Takes (heard self.old) (heard self.new) result }
        ensures same { self.new.is_over ≡ self.old.is_over }
    {
        match self.look(rt) {
            Ok(piece) => Ok(piece),
            Err(TryRecvError::Disconnected) => Err(TryRecvError::Disconnected),
            Err(TryRecvError::Empty) => {
                let _ = self.bell.recv_timeout(rt, most);
                self.look(rt)
            }
        }
    }

    /// Waits for more of the input, at most for a while, and puts the next piece behind what was read ahead. Behind the
    /// end of the input nothing is waited for any more.
    ///
    /// # Errors
    /// As the read that failed, or for want of memory. `UnexpectedEof` where who reads the input is gone without a word.
    #[tactic(auto, using(crate::proofs::Ordered::over_behind))]
    pub fn hear<R: Wait + Clock>(
        &mut self,
        rt: &R,
        input: &mut Input,
        most: Duration,
    ) -> Result<Came, InputFault>
        ensures hears { Hears (heard self.old) (heard self.new) input.old input.new result }
    {
        if self.is_over {
            return Ok(Came::Over);
        }
        match self.next(rt, most) {
            Ok(Piece::Bytes(bytes)) => match input.put(bytes.as_slice()) {
                Ok(()) => Ok(Came::Bytes),
                Err(_) => Err(InputFault::Memory),
            },
            Ok(Piece::Failed(fault)) => Err(fault),
            Ok(Piece::End) => {
                self.is_over = true;
                Ok(Came::Over)
            }
            Err(TryRecvError::Disconnected) => Err(lost()),
            Err(TryRecvError::Empty) => Ok(Came::Nothing),
        }
    }

    /// Whether the input is over. A piece that came and isn't its end is let go.
    #[tactic(auto, using(crate::proofs::Ordered::over_behind))]
    pub fn is_over<R: Wait>(&mut self, rt: &R) -> bool
        ensures { result ≡ true → IsOver (heard self.new) }
    {
        if !self.is_over {
            self.is_over = matches!(self.look(rt), Ok(Piece::End));
        }
        self.is_over
    }
}
