//! The two ends of an input that a thread reads.

ghost use Rattle.std.specs.Prelude.{◌≡◌, [], IfOk, true};
ghost use Rattle.crossbeam_channel.specs.Claims.{view, IsSeatAt};
ghost use Rattle.crossbeam_channel.specs.Ends.{receives_on, sends_on};
ghost use Rattle.rv_feed.specs.Order.{IsOver, pieces_known};
ghost use Rattle.rv_feed.specs.declared.rule.Known.TheVariants.{Said, Heard};

use crate::piece::Piece;
use crate::rule::{InOrder, Known, Parts};
use crossbeam_channel::{
    Pass, Receiver, RuledReceiver, RuledSender, Sender, bounded, bounded_with,
};
use std::alloc::{AllocError, Global};

// How many pieces may be under way.
const PIECES: usize = 4;

/// The end that reads the input.
#[derive(Drop)]
pub struct Speaker {
    pub(crate) alloc: Global,
    pub(crate) pieces: RuledSender<Piece, Known, InOrder>,
    pub(crate) pass: Pass<Piece, Known>,
    // Rings behind each piece. It is let go behind the pieces: who hears that it is gone finds that they are.
    pub(crate) bell: Sender<u8>,
    pub ghost at: { IsSeatAt (sends_on pieces) pass },
    pub ghost says: { view pass ≡ Said (pieces_known (view pass)) },
}

/// The end that waits for it.
#[derive(Drop)]
pub struct Feed {
    pub(crate) alloc: Global,
    pub(crate) pieces: RuledReceiver<Piece, Known, InOrder>,
    pub(crate) pass: Pass<Piece, Known>,
    pub(crate) bell: Receiver<u8>,
    // Whether the input is over, as was told.
    pub(crate) is_over: bool,
    pub ghost at: { IsSeatAt (receives_on pieces) pass },
    pub ghost hears: { view pass ≡ Heard (pieces_known (view pass)) },
    pub ghost told: { is_over ≡ true → IsOver (pieces_known (view pass)) },
}

/// The two ends of one channel. Nothing was read yet.
///
/// # Errors
/// Where memory is refused.
pub fn ends(alloc: Global) -> Result<(Speaker, Feed), AllocError>
    ensures one { IfOk result (λ ends. receives_on ends.1.pieces ≡ sends_on ends.0.pieces) }
    ensures said { IfOk result (λ ends. pieces_known (view ends.0.pass) ≡ []) }
    ensures heard { IfOk result (λ ends. pieces_known (view ends.1.pass) ≡ []) }
{
    let (bell, rings) = bounded(alloc, 1)?;
    let (sender, receiver, mut pass): (
        RuledSender<Piece, Known, InOrder>,
        RuledReceiver<Piece, Known, InOrder>,
        Pass<Piece, Known>,
    ) = bounded_with(alloc, PIECES)?;
    let other = sender.another::<Parts>(&mut pass);
    let speaker = Speaker {
        alloc,
        pieces: sender,
        pass,
        bell,
    };
    let feed = Feed {
        alloc,
        pieces: receiver,
        pass: other,
        bell: rings,
        is_over: false,
    };
    Ok((speaker, feed))
}
