//! The two ends of an output that a thread writes.

ghost use Rattle.std.specs.Prelude.{◌≡◌, [], IfOk};
ghost use Rattle.std.specs.Arc.{arc_value};
ghost use Rattle.crossbeam_queue.specs.SegTies.{IsSegPassOf};
ghost use Rattle.rv_outlet.specs.Order.{pieces_known};
ghost use Rattle.rv_outlet.specs.declared.rule.Known.TheVariants.{Put, Taken};

use crate::rule::{InOrder, Known, Parts};
use crate::told::Told;
use crossbeam_queue::{RuledSegQueue, SegPass};
use std::alloc::{AllocError, Global};
use std::sync::{Arc, Condvar, Mutex};

/// What the two ends share. No lock is held while something is written.
pub(crate) struct Shared {
    /// The bytes that wait.
    pub(crate) queue: RuledSegQueue<Vec<u8>, Known, InOrder>,
    /// What is told beside them.
    pub(crate) told: Mutex<Told>,
    /// Rings where there is something to write, or no more comes.
    pub(crate) filled: Condvar,
    /// Rings where no more is written.
    pub(crate) ended: Condvar,
}

impl Drop for Shared {
    fn drop(self) {
        let Shared {
            queue,
            told: _,
            filled: _,
            ended: _,
        } = self;
        queue.destroy();
    }
}

/// The end that is written to. It never waits for a reader.
#[derive(Drop)]
pub struct Outlet<'a, R> {
    pub(crate) rt: &'a R,
    pub(crate) alloc: Global,
    pub(crate) shared: Arc<Shared, Global>,
    pub(crate) pass: SegPass<Vec<u8>, Known>,
    pub ghost at: { IsSegPassOf (arc_value shared).queue pass },
    pub ghost puts: { pass.me.view.client ≡ Put (pieces_known pass.me.view.client) },
}

/// The end that writes what comes.
#[derive(Drop)]
pub struct Drain {
    pub(crate) shared: Arc<Shared, Global>,
    pub(crate) pass: SegPass<Vec<u8>, Known>,
    pub ghost at: { IsSegPassOf (arc_value shared).queue pass },
    pub ghost takes: { pass.me.view.client ≡ Taken (pieces_known pass.me.view.client) },
}

/// The two ends of one queue. Nothing was put there yet.
///
/// # Errors
/// Where memory is refused.
pub fn ends<R>(rt: &R, alloc: Global) -> Result<(Outlet<'_, R>, Drain), AllocError>
    ensures one { IfOk result (λ ends. (arc_value ends.1.shared).queue ≡ (arc_value ends.0.shared).queue) }
    ensures put { IfOk result (λ ends. pieces_known ends.0.pass.me.view.client ≡ []) }
    ensures taken { IfOk result (λ ends. pieces_known ends.1.pass.me.view.client ≡ []) }
{
    let (queue, mut pass): (
        RuledSegQueue<Vec<u8>, Known, InOrder>,
        SegPass<Vec<u8>, Known>,
    ) = RuledSegQueue::with_rule(alloc)?;
    let other = queue.another::<Parts>(&mut pass);
    let shared = Shared {
        queue,
        told: Mutex::new(Told::new()),
        filled: Condvar::new(),
        ended: Condvar::new(),
    };
    let Ok(shared) = Arc::new(alloc, shared) else {
        return Err(AllocError);
    };
    let drain = Drain {
        shared: Arc::try_clone(&shared)?,
        pass: other,
    };
    Ok((
        Outlet {
            rt,
            alloc,
            shared,
            pass,
        },
        drain,
    ))
}
