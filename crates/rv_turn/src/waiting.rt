//! How a pass waits for its turn. Before it draws a ticket it stands back for a short while, so
//! that few tickets are out at a time: a thread with the next ticket that isn't running holds up
//! all others. With a ticket it looks a few times, then lets other threads run first, at last it
//! sleeps.
ghost use Rattle.std.specs.Prelude.{◌≡◌, ◌+◌, ◌%◌, ◌^◌, false};
ghost use Rattle.rv_turn.specs.Rules.{TookTurn};

use crate::counted::Counted;
use crate::hall::Hall;
use crate::rule::Place;
use crate::steps::{all_served, now_served};
use std::sync::Wait;
use std::sync::atomic::Ordering;
use std::{hint, thread};

// How many looks a pass takes before it draws a ticket although others have some.
const LOOKS_BEFORE: u32 = 400;

// After how many of them it lets other threads run, where it only spun till then.
const SPINS_BEFORE: u32 = 7;

// How many looks with a ticket come one right after another.
const SPINS: u32 = 100;

// After how many looks with a ticket a pass sleeps.
const LOOKS: u32 = 1000;

/// Lets those who have tickets go first for a short while. The spins between the looks grow, so
/// that the words stay with the thread that works on them.
pub(crate) fn stand_back<C: Counted>(hall: &Hall<C>)
    requires { hall.now.board.shared.table_id.words ≡ 3 }
{
    let mut spins = 1u32;
    for look in 0..LOOKS_BEFORE {
        if all_served::<C>(&hall.board) {
            return;
        }
        if look < SPINS_BEFORE {
            spin(spins);
            spins = spins.saturating_mul(2);
        } else {
            thread::yield_now();
        }
    }
}

fn spin(times: u32) {
    for _ in 0..times {
        hint::spin_loop();
    }
}

/// Waits until the ticket is served. The value is then the seat's.
pub(crate) fn wait_turn<C: Counted, R: Wait>(
    rt: &R,
    hall: &Hall<C>,
    place: &mut Place<C, C::Entry, C::About>,
    ticket: u64,
)
    requires words { hall.now.board.shared.table_id.words ≡ 3 }
    requires seated { place.old.table_id ≡ hall.now.board.shared.table_id }
    requires waits { (place.old.me.0.turn ≡ false) × (place.old.me.0.ticket ≡ ticket + 1) }
    ensures same { place.new.table_id ≡ place.old.table_id }
    ensures turn { TookTurn C.history C.about C.actor_of place.old.me place.new.me }
{
    let mut looks = 0u32;
    for _ in rt.forever() {
        let served = now_served::<C>(&hall.board, place);
        if served == ticket {
            break;
        }
        pause::<C, R>(rt, hall, looks, served);
        looks = looks.saturating_add(1);
    }
}

/// Lets some time pass before the next look, and sleeps at most until another ticket than this one
/// is served.
fn pause<C: Counted, R: Wait>(rt: &R, hall: &Hall<C>, looks: u32, served: u64)
    requires { hall.now.board.shared.table_id.words ≡ 3 }
{
    if looks < SPINS {
        hint::spin_loop();
    } else if looks < LOOKS {
        thread::yield_now();
    } else {
        hall.sleepers.fetch_add(1, Ordering::SeqCst);
        hall.board.shared.park(rt, 2, low_half(served));
        hall.sleepers.fetch_sub(1, Ordering::SeqCst);
    }
}

/// Wakes the passes that sleep, after another ticket is served.
pub(crate) fn wake<C: Counted>(hall: &Hall<C>)
    requires { hall.now.board.shared.table_id.words ≡ 3 }
{
    if hall.sleepers.load(Ordering::SeqCst) != 0 {
        hall.board.shared.wake_all(2);
    }
}

// The low 32 bits, which are those that a sleeper's word is compared by.
fn low_half(word: u64) -> u32
    ensures { result ≡ word % 2 ^ 32 }
{
    (word % (1 << 32)) as u32
}
