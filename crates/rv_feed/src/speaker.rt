//! The end that reads an input.

ghost use Rattle.std.specs.Prelude.{◌≡◌, ◌≤◌, ℕ, List, [], length, true};
ghost use Rattle.std.specs.Io.KnownBytes.{Consumes, IsAtEnd};
ghost use Rattle.rv_feed.specs.Hearing.{HandsOn, HandsOnBut, IsCopy, MaySay, ReadsPiece, Says, said};
ghost use Rattle.rv_feed.specs.Order.{IsOver};
ghost use Rattle.rv_feed.specs.declared.piece.Piece.TheVariants as Pieces;

use crate::pair::Speaker;
use crate::piece::Piece;
use crate::rule::Goes;
use rv_input::InputFault;
use std::io::Read;
use std::sync::Wait;

// How many bytes a piece has at most.
const PIECE: usize = 4096;

impl Speaker {
    // The bytes that were read, or none where memory for them was refused.
    fn copied(&self, bytes: &[u8]) -> Piece
        ensures { IsCopy bytes.now result }
    {
        let mut copy = Vec::new(self.alloc);
        match copy.extend_from_slice(bytes) {
            Ok(()) => Piece::Bytes(copy),
            Err(_) => Piece::Failed(InputFault::Memory),
        }
    }

    // The next piece of an input.
    fn piece<I: Read>(&self, reader: &mut I) -> Piece
        ensures { ReadsPiece (I.remaining reader.old) (I.remaining reader.new) result }
    {
        let mut chunk = [0; PIECE];
        match reader.read(&mut chunk) {
            Ok(0) => Piece::End,
            Ok(count) => self.copied(&chunk[..count]),
            Err(e) => Piece::Failed(InputFault::Io(e)),
        }
    }

    // Hands a piece on, and rings. False where nobody waits for it any more.
    fn say<R: Wait>(&mut self, rt: &R, piece: Piece) -> bool
        ensures { Says (said self.old) (said self.new) piece result }
    {
        match self.pieces.send_as::<Goes, R>(rt, &mut self.pass, piece) {
            Ok(()) => {
                // A bell that rings already needs no other ring.
                let _ = self.bell.try_send(rt, 1);
                true
            }
            Err(_) => false,
        }
    }

    // Reads once, and hands on what comes. False at the end, behind a failure, and where nobody waits any more.
    #[tactic(auto, using(crate::proofs::Ordered::hands_bytes, crate::proofs::Ordered::hands_read, crate::proofs::Ordered::hands_fault, crate::proofs::Ordered::hands_end, crate::proofs::Ordered::not_over_by_bytes, crate::proofs::Ordered::ends_not_by_bytes, crate::proofs::Ordered::ends_not_by_fault))]
    fn read_on<R: Wait, I: Read>(&mut self, rt: &R, reader: &mut I) -> bool
        ensures hands { HandsOn (said self.old) (said self.new) (I.remaining reader.old) (I.remaining reader.new) }
        ensures whole { result ≡ true → HandsOnBut [] (said self.old) (said self.new) (I.remaining reader.old) (I.remaining reader.new) }
        ensures goes { result ≡ true → IsOver (said self.new) → ⊥ }
        ensures ends { (IsOver (said self.old) → ⊥) → IsOver (said self.new) → IsAtEnd (I.remaining reader.new) }
    {
        match self.piece(reader) {
            Piece::Bytes(bytes) => self.say(rt, Piece::Bytes(bytes)),
            Piece::Failed(fault) => {
                self.say(rt, Piece::Failed(fault));
                false
            }
            Piece::End => {
                self.say(rt, Piece::End);
                false
            }
        }
    }

    /// Reads an input to its end, or until nobody waits for it, and hands on what comes. The end of the input is told
    /// where it was read, and only there.
    pub fn read_all<R: Wait, I: Read>(&mut self, rt: &R, reader: &mut I)
        ensures hands { HandsOn (said self.old) (said self.new) (I.remaining reader.old) (I.remaining reader.new) }
        ensures ends { (IsOver (said self.old) → ⊥) → IsOver (said self.new) → IsAtEnd (I.remaining reader.new) }
    {
        for _ in rt.forever() {
            if !self.read_on(rt, reader) {
                return;
            }
        }
    }

    /// Tells that an input is over, where somebody waits for it.
    pub fn tell_end<R: Wait>(&mut self, rt: &R)
        ensures { MaySay (said self.old) (said self.new) Pieces.End }
    {
        self.say(rt, Piece::End);
    }

    /// Reads an input once, at most a byte, to whatever comes of it, and then tells that it is over.
    pub fn read_once<R: Wait, I: Read>(&mut self, rt: &R, reader: &mut I)
        ensures reads { (bytes : List ℕ) × (length bytes ≤ 1) × Consumes (I.remaining reader.old) (I.remaining reader.new) bytes }
        ensures tells { MaySay (said self.old) (said self.new) Pieces.End }
    {
        let mut chunk = [0];
        let _ = reader.read(&mut chunk);
        self.tell_end(rt);
    }
}
