//! How many requests of its own the text of a task may make.

ghost use Rattle.std.specs.Prelude.{◌≡◌, ◌≤◌};
ghost use Rattle.rv_port.specs.Budgets.{in_bounds};

use std::marker::Model;

/// The most requests of its own that a task's text may make: some two days of 20,000 a second.
pub const MOST_REQUESTS: u32 = 4_294_967_295;

/// How many requests of its own a task's text may make, 1 to `MOST_REQUESTS`. Contracts see the number.
#[derive(Clone, Copy, Drop)]
pub struct Budget {
    requests: u32,
}

impl Model for Budget {
    ghost use Rattle.std.specs.Prelude.{ℕ, ◌≤◌};
    ghost use Rattle.std.specs.Coded.{coded_ℕ};

    ghost Value = { ℕ };

    ghost coded = { coded_ℕ };

    ghost view = { λ b. b.requests };

    ghost invariant = { λ b. 1 ≤ b.requests };

    ghost inverse = { λ n. record { requests = n } };
}

impl Budget {
    /// So many requests; 1 in place of none.
    pub fn of(requests: u32) -> Budget
        ensures { result ≡ in_bounds requests }
    {
        if requests < 1 {
            return Budget { requests: 1 };
        }
        Budget { requests }
    }

    /// How many.
    pub fn requests(self) -> u32
        ensures same { result ≡ self }
        ensures least { 1 ≤ result }
    {
        self.requests
    }
}
