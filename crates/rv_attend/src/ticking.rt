//! The host's clock follows a real one.

ghost use Rattle.std.specs.Prelude.{◌≡◌, ◌≤◌, None, false, option_map, true};
ghost use Rattle.std.specs.Time.{instant_nanos};
ghost use Rattle.rv_behind.specs.Events.{catalogue_of};
ghost use Rattle.rv_attend.specs.Chores.{Chores};
ghost use Rattle.rv_attend.specs.Ticking.{AsksOf, AsksRoom, Begins, KeepsPace, KeepsPaceOnce, Ticks, TicksOnce, had_room};
ghost use Rattle.rv_attend.specs.Reserving.{fit_ticks};

use rv_event::entry::Answer;
use rv_pace::Pace;
use rv_room::Books;
use rv_staff::Staff;
use rv_turn::Worn;
use std::sync::Wait;
use std::time::{Clock, Duration, Instant};

// Asks so many ticks. What is answered is for nobody: at a full or halted host they are refused.
fn ask<T: Wait>(rt: &T, staff: &mut Staff, ticks: u64)
    requires { ticks ≤ 1_000_000 }
    ensures asks { AsksOf ticks staff.old.control staff.new.control }
    ensures crew { staff.new.crew ≡ staff.old.crew }
{
    let _ = staff.tick(rt, ticks as i64);
}

// Asks the ticks that are due at a moment.
fn tick<T: Wait>(rt: &T, staff: &mut Staff, pace: &mut Pace, now: Instant)
    ensures ticks { Ticks staff.old.control staff.new.control pace.old pace.new (instant_nanos now) }
    ensures crew { staff.new.crew ≡ staff.old.crew }
{
    loop {
        let ticks = pace.step(now);
        if ticks == 0 {
            return;
        }
        ask(rt, staff, ticks);
    }
}

// A clock that is followed from a moment on, with such a period.
fn begun(period: Option<u64>, now: Instant) -> Option<Pace>
    ensures { Begins period (instant_nanos now) result }
{
    match period {
        Some(period) => Pace::new(now, period),
        None => None,
    }
}

/// What the clock tells, where one is followed and can be read.
pub(crate) fn reading<T: Clock>(rt: &T, period: Option<u64>) -> Option<Instant>
    ensures { period ≡ None → result ≡ None }
{
    match period {
        Some(_) => Instant::now(rt).ok(),
        None => None,
    }
}

/// Asks the ticks that are due at a reading of the clock. The first one begins it; without one nothing is asked.
pub(crate) fn keep_pace<T: Wait>(
    rt: &T,
    staff: &mut Staff,
    period: Option<u64>,
    reading: Option<Instant>,
    pace: &mut Option<Pace>,
)
    ensures ticks { KeepsPace staff.old.control staff.new.control period (option_map instant_nanos reading) pace.old pace.new }
    ensures chores { Chores staff.old.control staff.new.control }
    ensures crew { staff.new.crew ≡ staff.old.crew }
{
    let Some(now) = reading else {
        return;
    };
    match pace {
        Some(pace) => tick(rt, staff, pace, now),
        None => *pace = begun(period, now),
    }
}

// Whether there was room for what was answered so.
fn had_room(answer: &Result<Answer, Worn>) -> bool
    ensures { result ≡ had_room answer.now }
{
    !matches!(answer, Ok(Answer::Full))
}

// Asks so many ticks. Whether there was room for them.
fn ask_room<T: Wait>(rt: &T, staff: &mut Staff, ticks: u64) -> bool
    requires { ticks ≤ 1_000_000 }
    ensures asks { AsksRoom ticks result staff.old.control staff.new.control }
    ensures crew { staff.new.crew ≡ staff.old.crew }
{
    let answer = staff.tick(rt, ticks as i64);
    had_room(&answer)
}

// Asks the ticks that are due at a moment, at most 1,000,000. Those that there is no room for now stay due.
#[tactic(auto, using(crate::proofs::Ticked::once_none, crate::proofs::Ticked::once_asked, crate::proofs::Ticked::once_full))]
fn tick_once<T: Wait>(rt: &T, staff: &mut Staff, pace: &mut Pace, now: Instant)
    ensures ticks { TicksOnce staff.old.control staff.new.control pace.old pace.new (instant_nanos now) }
    ensures crew { staff.new.crew ≡ staff.old.crew }
{
    let ticks = pace.step(now);
    if ticks == 0 {
        return;
    }
    if ask_room(rt, staff, ticks) {
        return;
    }
    pace.give_back(ticks);
}

/// The same where the run lasts: at a reading at most 1,000,000 ticks are asked, and those that there is no room for now stay due.
pub(crate) fn keep_pace_lasting<T: Wait>(
    rt: &T,
    staff: &mut Staff,
    period: Option<u64>,
    reading: Option<Instant>,
    pace: &mut Option<Pace>,
)
    ensures ticks { KeepsPaceOnce staff.old.control staff.new.control period (option_map instant_nanos reading) pace.old pace.new }
    ensures chores { Chores staff.old.control staff.new.control }
    ensures crew { staff.new.crew ≡ staff.old.crew }
{
    let Some(now) = reading else {
        return;
    };
    match pace {
        Some(pace) => tick_once(rt, staff, pace, now),
        None => *pace = begun(period, now),
    }
}

// Asks the ticks that are due at a moment, at most 1,000,000, and counts that.
#[tactic(auto, using(crate::proofs::Ticked::once_none, crate::proofs::Ticked::once_asked, crate::proofs::Ticked::once_full))]
fn tick_counted<T: Wait>(
    rt: &T,
    staff: &mut Staff,
    pace: &mut Pace,
    now: Instant,
    books: &mut Books,
)
    ensures ticks { TicksOnce staff.old.control staff.new.control pace.old pace.new (instant_nanos now) }
    ensures crew { staff.new.crew ≡ staff.old.crew }
{
    let ticks = pace.step(now);
    if ticks == 0 {
        return;
    }
    *books = (*books).with_ticks();
    if ask_room(rt, staff, ticks) {
        return;
    }
    pace.give_back(ticks);
}

/// The same where entries are kept for the operator: ticks are asked only where these are left behind them, once at a reading.
pub(crate) fn keep_pace_within<T: Wait>(
    rt: &T,
    staff: &mut Staff,
    period: Option<u64>,
    reading: Option<Instant>,
    pace: &mut Option<Pace>,
    books: &mut Books,
    capacity: usize,
)
    ensures kept { fit_ticks (catalogue_of staff.old.control.seen) books.old capacity ≡ false → staff.new.control ≡ staff.old.control }
    ensures ticks { fit_ticks (catalogue_of staff.old.control.seen) books.old capacity ≡ true
        → KeepsPaceOnce staff.old.control staff.new.control period (option_map instant_nanos reading) pace.old pace.new }
    ensures chores { Chores staff.old.control staff.new.control }
    ensures crew { staff.new.crew ≡ staff.old.crew }
{
    if !(*books).with_ticks().fit(staff.catalogue(), capacity) {
        return;
    }
    let Some(now) = reading else {
        return;
    };
    match pace {
        Some(pace) => tick_counted(rt, staff, pace, now, books),
        None => *pace = begun(period, now),
    }
}

/// How long it is until the next ticks are due, where a clock is followed and can be read.
pub(crate) fn until_tick<T: Clock>(rt: &T, pace: &Option<Pace>) -> Option<Duration> {
    let Some(pace) = pace else {
        return None;
    };
    match Instant::now(rt) {
        Ok(now) => Some(pace.pause(now)),
        Err(_) => None,
    }
}
