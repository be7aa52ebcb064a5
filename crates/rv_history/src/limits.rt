//! What bounds a host.

ghost use Rattle.std.specs.Prelude.{◌≡◌};
ghost use Rattle.rv_history.specs.Limits.{limits_of, limits_with, limits_within};

/// What bounds a host, and no act changes.
#[derive(Clone, Copy, Drop)]
pub struct Limits {
    /// How many entries there may be, 16 .. 1,048,576.
    pub capacity: usize,
    /// How many callers may wait in a queue, 1 .. 8 (D.7); above 1 it leaves the profile.
    pub queue: usize,
    /// How many entries a unit may spend (own): what its tasks ask, and what is asked in the bodies of its objects. None where
    /// nothing bounds it but the capacity.
    pub allowance: Option<u32>,
}

/// How many entries a journal may have at most, with those that were given up. A text has numbers of more digits, and as many ticks
/// of a million are a number of 63 bits.
pub const MOST_ENTRIES: usize = 1_000_000_000_000;

/// How many callers may wait in a queue under the profile (D.7, D.13).
const QUEUE_LIMIT: usize = 1;

impl Limits {
    /// Those of a host with room for that many entries, 16 .. 1,048,576.
    pub fn of(capacity: usize) -> Limits
        ensures { result ≡ limits_of capacity }
    {
        Limits {
            capacity,
            queue: QUEUE_LIMIT,
            allowance: None,
        }
    }

    /// Those of one whose queues have room for that many callers, 1 .. 8.
    pub fn with(capacity: usize, queue: usize) -> Limits
        ensures { result ≡ limits_with capacity queue }
    {
        Limits::within(capacity, queue, None)
    }

    /// The same, where each unit may spend so many entries, if that is bounded.
    pub fn within(capacity: usize, queue: usize, allowance: Option<u32>) -> Limits
        ensures { result ≡ limits_within capacity queue allowance }
    {
        Limits {
            capacity,
            queue,
            allowance,
        }
    }
}
