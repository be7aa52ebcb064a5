//! What the two ends tell one another beside the bytes.

ghost use Rattle.std.specs.Prelude.{◌≡◌, ◌≤◌, ◌+◌, ◌-◌, true, None, OnOk};
ghost use Rattle.rv_outlet.specs.Telling.{Reserves, failure_of, is_idle, is_unread, most_bytes, outcome_of};

use std::io;
use std::io::ErrorKind;

/// How many bytes may wait: more than the largest answer has, which is a page of list changes.
pub const MOST_BYTES: usize = 1 << 24;

// What is said of too many.
const UNREAD: &str = "nobody reads the output: 16 MiB of it wait";

/// How much waits to be written, and how far the writing is.
#[derive(Drop)]
pub(crate) struct Told {
    /// How many bytes wait.
    pub(crate) waiting: usize,
    /// Why a write failed, the first that did.
    pub(crate) failure: Option<io::Error>,
    /// Whether no more comes.
    pub(crate) closed: bool,
    /// Whether no more is written.
    pub(crate) over: bool,
    pub(crate) ghost bounded: { waiting ≤ most_bytes },
}

/// Whether an error says that too many bytes wait, since nobody reads them. The system's own errors don't.
pub fn is_unread(error: &io::Error) -> bool
    ensures { result ≡ is_unread error.now }
{
    error.kind() == ErrorKind::WouldBlock && error.raw_os_error().is_none()
}

impl Told {
    /// Nothing waits yet.
    pub(crate) fn new() -> Told
        ensures waiting { result.waiting ≡ 0 }
        ensures failure { result.failure ≡ None }
    {
        Told {
            waiting: 0,
            failure: None,
            closed: false,
            over: false,
        }
    }

    /// Counts so many bytes more, which are about to be put.
    ///
    /// # Errors
    /// The first failure of a write; else an error that `is_unread` knows where too many would wait.
    pub(crate) fn reserve(&mut self, count: usize) -> io::Result<()>
        ensures reserves { Reserves self.old.failure self.old.waiting count self.new.waiting result }
        ensures failure { self.new.failure ≡ self.old.failure }
    {
        if let Some(failure) = self.failure {
            return Err(failure);
        }
        if MOST_BYTES - self.waiting < count {
            return Err(io::Error::new(ErrorKind::WouldBlock, UNREAD));
        }
        self.waiting += count;
        Ok(())
    }

    /// So many bytes wait no more.
    pub(crate) fn take_off(&mut self, count: usize)
        ensures waiting { self.new.waiting ≡ self.old.waiting - count }
        ensures failure { self.new.failure ≡ self.old.failure }
    {
        self.waiting = self.waiting.saturating_sub(count);
    }

    /// Whether there is nothing to write yet, while more may come.
    pub(crate) fn is_idle(&self) -> bool
        ensures { result ≡ is_idle self.now.waiting self.now.closed }
    {
        self.waiting == 0 && !self.closed
    }

    /// No more comes.
    pub(crate) fn close(&mut self)
        ensures { (self.new.closed ≡ true) × (self.new.waiting ≡ self.old.waiting) }
    {
        self.closed = true;
    }

    /// No more is written: a write failed, or all is written.
    pub(crate) fn end(&mut self, written: io::Result<()>)
        ensures over { self.new.over ≡ true }
        ensures failure { self.new.failure ≡ failure_of written }
    {
        self.over = true;
        self.failure = written.err();
    }

    /// Whether writing failed.
    pub(crate) fn outcome(&self) -> io::Result<()>
        ensures { result ≡ outcome_of self.now.failure }
    {
        match self.failure {
            Some(failure) => Err(failure),
            None => Ok(()),
        }
    }
}
