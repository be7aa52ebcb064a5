//! A thread that runs a job on a port.

ghost use Rattle.std.specs.Prelude.{◌≡◌, false, IfSome};
ghost use Rattle.rv_crew.specs.Teams.{Pays, owing};

use crate::job::{Duty, Job, OfPort};
use crate::kept::Kept;
use rv_port::port::{Finished, Port};
use std::alloc::{AllocError, Global};
use std::sync::Arc;
use std::sync::atomic::{AtomicBool, Ordering};
use std::thread::{Builder, PromisedHandle, Threads};

/// The stack of a job's thread, in bytes. What the bodies of a port take stands in the port.
pub const STACK_BYTES: usize = 256 * 1024;

/// A mark that a job has ended.
#[derive(Drop)]
pub(crate) struct Mark {
    is_set: AtomicBool,
}

/// The two holders of a mark: the thread, which sets it, and whoever waits for the thread and looks.
#[derive(Drop)]
pub(crate) struct Ended {
    told: Arc<Mark>,
    seen: Arc<Mark>,
}

impl Ended {
    /// It hasn't.
    pub fn new(alloc: Global) -> Result<Ended, AllocError> {
        let mark = Mark {
            is_set: AtomicBool::new(false),
        };
        let told = match Arc::new(alloc, mark) {
            Ok(told) => told,
            Err(_) => return Err(AllocError),
        };
        let seen = told.clone()?;
        Ok(Ended { told, seen })
    }
}

/// A thread that was started, and isn't joined yet.
pub(crate) struct Running<D: Duty> {
    thread: PromisedHandle<Finished, OfPort<D>>,
    /// Whose port it has.
    pub actor: u64,
    // Whether its job has ended.
    has_ended: Arc<Mark>,
    // What it owes.
    kept: Kept<D>,
    ghost same: { (actor ≡ thread.promise.0.value.actor) × (kept.port.value ≡ thread.promise.0.value) × (kept.duty ≡ thread.promise.1.value) },
}

impl<D: Duty> Drop for Running<D> {
    // A function of its own: a derived one is written out wherever a crew is let go, and proved there. The thread runs on.
    fn drop(self) {
        let Running {
            thread: _,
            actor: _,
            has_ended: _,
            kept: _,
        } = self;
    }
}

impl<D: Duty> Running<D> {
    /// Runs a job on a port in a thread of its own, which owes the port with the job's duty done. None where that is refused, or
    /// there is no thread.
    pub fn begin<R: Threads>(
        rt: &R,
        job: Job,
        duty: D,
        port: Port,
        ended: Ended,
        is_refused: bool,
    ) -> Option<Running<D>>
        requires port { port ≡ job.port.value }
        requires does { (f : _) → post job.run port f → D.does duty port f }
        ensures { IfSome result (λ r. (owing r.thread.promise.0.value r.thread.promise.1.value ≡ owing port duty) × (is_refused ≡ false)) }
    {
        if is_refused {
            return None;
        }
        let actor = port.actor();
        let Ended { told, seen } = ended;
        let Job { port: _, run } = job;
        let promise = OfPort::of(&port, &duty);
        let kept = Kept::of(&port, duty);
        let begun = Builder::new().stack_size(STACK_BYTES).spawn_with(
            rt,
            promise,
            move ||
                requires { pre run port }
                ensures { post run port result }
            {
                let finished = run(port);
                told.is_set.store(true, Ordering::Release);
                finished
            },
        );
        match begun {
            Ok(thread) => Some(Running {
                thread,
                actor,
                has_ended: seen,
                kept,
            }),
            Err(_) => None,
        }
    }

    /// Whether its job has ended, so that it can be joined without waiting. No clause says so: an answer either way is taken.
    pub fn has_ended(&self) -> bool {
        self.has_ended.is_set.load(Ordering::Acquire)
    }

    /// Waits until its job has ended, for the port that it gives back, with what was owed for it.
    pub fn join<R: Threads>(self, rt: &R) -> (Finished, Kept<D>)
        ensures pays { Pays D.does (owing self.thread.promise.0.value self.thread.promise.1.value) result.0 }
        ensures kept { owing result.1.port.value result.1.duty ≡ owing self.thread.promise.0.value self.thread.promise.1.value }
    {
        let Running {
            thread,
            actor: _,
            has_ended: _,
            kept,
        } = self;
        (thread.join(rt), kept)
    }
}
