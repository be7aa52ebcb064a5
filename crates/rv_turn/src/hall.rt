//! What all passes of one turn share.
use crate::counted::Counted;
use crate::rule::Board;
use std::sync::atomic::AtomicU64;

/// The table of a turn, and how many passes sleep until another ticket is served.
#[derive(Drop)]
pub(crate) struct Hall<C: Counted> {
    pub(crate) board: Board<C, C::Entry, C::About>,
    pub(crate) sleepers: AtomicU64,
}
