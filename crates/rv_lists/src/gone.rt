//! The lists that were let go, for proofs alone: they take no memory.

ghost use Rattle.std.specs.Prelude.{◌≡◌, [], ◌++◌, length, take};
ghost use Rattle.rv_lists.specs.Gone.{gone_lists};

use crate::series::Series;
use rv_ring::past::Past;

/// The lists that were let go, of which nothing is kept: each time the first so many of those that there were.
#[derive(Drop)]
pub struct Gone {
    /// Which lists there were, each time that some were let go.
    pub series: Past<Series>,
    /// How many of these were.
    pub counts: Past<usize>,
    pub ghost paired: { length series.items ≡ length counts.items },
}

impl Gone {
    /// No list.
    pub fn new() -> Gone
        ensures { gone_lists result.series.items result.counts.items ≡ [] }
    {
        Gone {
            series: Past::new(),
            counts: Past::new(),
        }
    }

    /// With the first so many of these, which are let go next.
    #[tactic(auto, using(crate::proofs::Leaving::gone_more, crate::proofs::Leaving::paired_more))]
    pub fn with(&self, series: &Series, count: usize) -> Gone
        ensures { gone_lists result.series.items result.counts.items ≡ gone_lists self.now.series.items self.now.counts.items ++ take count series.now }
    {
        Gone {
            series: self.series.with(series),
            counts: self.counts.with(&count),
        }
    }
}
