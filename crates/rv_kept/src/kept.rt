//! What is kept.

ghost use Rattle.std.specs.Prelude.{◌≡◌, IfOk};
ghost use Rattle.rv_go.specs.Texts.{no_texts, texts_view};
ghost use Rattle.rv_history.specs.Legal as legal;
ghost use Rattle.rv_history.specs.Limits.{limits_with};

use rv_go::hearing::ANY_NUMBER;
use rv_go::texts::Texts;
use rv_host::host::{Host, NewFault};
use std::alloc::Global;

/// A host, and the texts of its actors.
pub struct Kept {
    pub host: Host,
    pub texts: Texts,
}

impl Drop for Kept {
    // A function of its own: a derived one is written out wherever this is let go, and proved there.
    fn drop(self) {
        let Kept { host: _, texts: _ } = self;
    }
}

impl Kept {
    /// A host that has room for so many entries, 16 .. 1,048,576, and whose queues have room for so many callers, 1 .. 8; nothing is
    /// loaded. A task's own body may make so many requests, 1 .. 1,000,000.
    ///
    /// # Errors
    /// As `Host::with_limit`.
    pub fn new(alloc: Global, capacity: usize, limit: usize, budget: u32) -> Result<Kept, NewFault>
        ensures host { IfOk result (λ k. k.host ≡ legal.empty (limits_with capacity limit)) }
        ensures texts { IfOk result (λ k. texts_view k.texts ≡ no_texts budget) }
    {
        let host = Host::with_limit(alloc, capacity, limit)?;
        let texts = Texts::new(alloc, budget, ANY_NUMBER);
        Ok(Kept { host, texts })
    }
}
