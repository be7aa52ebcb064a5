//! The rule of the queue between the two ends: what was taken, and behind it what waits, is what was put there.

use crossbeam_queue::protocol::{Lesson, Outcome, Protocol, Split};
use std::collections::LinkedList;

/// What an end knows. No value of it is made: it stands in proofs alone.
pub enum Known {
    /// Nothing was put yet, and the ends aren't parted.
    Nothing,
    /// What the end that is written to put there so far.
    Put(LinkedList<Vec<u8>>),
    /// What the end that writes took so far.
    Taken(LinkedList<Vec<u8>>),
}

/// What is put there is taken once, in order.
pub struct InOrder;

impl Protocol<Vec<u8>, Known> for InOrder {
    ghost use Rattle.rv_outlet.specs.Order.{AreInOrder};
    ghost use Rattle.rv_outlet.specs.declared.rule.Known.TheVariants.{Nothing};

    ghost holds = { AreInOrder };

    ghost first = { Nothing };
}

/// The ends are parted.
pub struct Parts;

impl Split<Known> for Parts {
    ghost use Rattle.std.specs.Prelude.{[]};
    ghost use Rattle.rv_outlet.specs.declared.rule.Known.TheVariants.{Put, Taken};

    ghost left = { λ v. Put [] };

    ghost right = { λ v. Taken [] };
}

/// Bytes are put, or taken.
pub struct Goes;

impl Outcome<Vec<u8>, Known> for Goes {
    ghost use Rattle.std.specs.Prelude.{◌≡◌};
    ghost use Rattle.rv_outlet.specs.Order.{grown};

    ghost then = { λ v bytes w. w ≡ grown v bytes };
}

impl Lesson<Vec<u8>, Known> for Goes {
    ghost use Rattle.std.specs.Prelude.{⊤};

    ghost fact = { λ v waiting. ⊤ };
}
