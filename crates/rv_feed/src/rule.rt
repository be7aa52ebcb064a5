//! The rule of the channel between the two ends: what was taken, and behind it what is under way, is what was handed on.

use crate::piece::Piece;
use crossbeam_channel::protocol::{Lesson, Outcome, Protocol, Split};
use std::collections::LinkedList;

/// What an end knows. No value of it is made: it stands in proofs alone.
pub enum Known {
    /// Nothing was handed on yet, and the ends aren't parted.
    Nothing,
    /// The pieces that the end that reads handed on so far.
    Said(LinkedList<Piece>),
    /// The pieces that the end that waits took so far.
    Heard(LinkedList<Piece>),
}

/// Each piece that is handed on is taken once, in order.
pub struct InOrder;

impl Protocol<Piece, Known> for InOrder {
    ghost use Rattle.rv_feed.specs.Order.{AreInOrder};
    ghost use Rattle.rv_feed.specs.declared.rule.Known.TheVariants.{Nothing};

    ghost holds = { AreInOrder };

    ghost first = { Nothing };
}

/// The ends are parted.
pub struct Parts;

impl Split<Known> for Parts {
    ghost use Rattle.std.specs.Prelude.{[]};
    ghost use Rattle.rv_feed.specs.declared.rule.Known.TheVariants.{Said, Heard};

    ghost left = { λ v. Said [] };

    ghost right = { λ v. Heard [] };
}

/// A piece is handed on, or taken.
pub struct Goes;

impl Outcome<Piece, Known> for Goes {
    ghost use Rattle.std.specs.Prelude.{◌≡◌};
    ghost use Rattle.rv_feed.specs.Order.{grown};

    ghost then = { λ v piece w. w ≡ grown v piece };
}

impl Lesson<Piece, Known> for Goes {
    ghost use Rattle.std.specs.Prelude.{⊤};

    ghost fact = { λ v pieces. ⊤ };
}
