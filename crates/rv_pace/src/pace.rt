//! Which ticks are due, and which of them were asked.

ghost use Rattle.std.specs.Prelude.{◌≡◌, ◌<◌, ◌≤◌, ◌+◌, ◌-◌, ◌*◌, ◌^◌, ◌↔◌, min, IfSome, IsSome};
ghost use Rattle.std.specs.Time.{instant_nanos};
ghost use Rattle.std.specs.Duration.{as_nanos};
ghost use Rattle.rv_pace.specs.Pacing.{IsPeriod, missed, pause};

use std::marker::Model;
use std::time::{Duration, Instant};

/// The longest period, in milliseconds: an hour.
pub const MOST_PERIOD: u64 = 3_600_000;

/// How many ticks a request asks at most.
pub const MOST_TICKS: u64 = 1_000_000;

// How many nanoseconds a millisecond has.
const NANOS: u64 = 1_000_000;

/// Gives out the ticks of the whole periods that went by since a start, each once. A tick is a millisecond.
#[derive(Drop)]
pub struct Pace {
    start: Instant,
    period: u64,
    // How many ticks were given out.
    asked: u128,
    pub ghost some: { 0 < period },
    pub ghost within: { period ≤ 3_600_000 },
    pub ghost fits: { asked < 2 ^ 128 },
}

impl Model for Pace {
    ghost use Rattle.std.specs.Time.{instant_nanos};
    ghost use Rattle.rv_pace.specs.Pacing.{Pacing};

    ghost Value = { Pacing };

    ghost view = { λ p. record { start = instant_nanos p.start; period = p.period; asked = p.asked } };
}

impl Pace {
    /// A pace that begins at a moment, with a period of 1 .. `MOST_PERIOD` milliseconds.
    pub fn new(start: Instant, period: u64) -> Option<Pace>
        ensures variant { IsSome result ↔ IsPeriod period }
        ensures some { IfSome result (λ p. p ≡ record { start = instant_nanos start; period = period; asked = 0 }) }
    {
        if 0 < period && period <= MOST_PERIOD {
            return Some(Pace {
                start,
                period,
                asked: 0,
            });
        }
        None
    }

    /// Its period, in milliseconds.
    pub fn period(&self) -> u64
        ensures { result ≡ self.now.period }
    {
        self.period
    }

    // The ticks that are due at a moment, and weren't given out.
    fn missed(&self, now: Instant) -> u128
        ensures fits { self.now.asked + result < 2 ^ 128 }
        ensures missed { result ≡ missed self.now (instant_nanos now) }
    {
        let passed = now.duration_since(self.start).as_millis();
        let period = self.period as u128;
        (passed / period * period).saturating_sub(self.asked)
    }

    /// Of the ticks that are due at a moment those that weren't given out, at most `MOST_TICKS`; 0 where there are none.
    pub fn step(&mut self, now: Instant) -> u64
        ensures given { result ≡ min 1_000_000 (missed self.old (instant_nanos now)) }
        ensures asked { self.new ≡ record self.old { asked = self.old.asked + result } }
    {
        let ticks = self.missed(now).min(MOST_TICKS as u128) as u64;
        self.asked += ticks as u128;
        ticks
    }

    /// So many ticks that were given out are due again: they weren't asked.
    pub fn give_back(&mut self, ticks: u64)
        requires { ticks ≤ self.old.asked }
        ensures { self.new ≡ record self.old { asked = self.old.asked - ticks } }
    {
        self.asked -= ticks as u128;
    }

    /// How long it is from a moment until the next ticks are due.
    pub fn pause(&self, now: Instant) -> Duration
        ensures { as_nanos result ≡ pause self.now (instant_nanos now) }
    {
        let period = self.period * NANOS;
        let passed = now.duration_since(self.start).as_nanos() % (period as u128);
        Duration::from_nanos(period - passed as u64)
    }
}
