//! The handle.

ghost use Rattle.std.specs.Prelude.{◌≡◌, Option, Some, None, MatchOption};
ghost use Rattle.std.specs.Coded.{coded_option};
ghost use Rattle.rv_handle.specs.Held.{held};
ghost use Rattle.rv_kept.specs.contracts.kept.Kept.{the_row as kept};

use crate::loose::Loose;
use rv_kept::Kept;
use std::alloc::Global;
use std::marker::Model;
use std::mem::replace;
use std::ptr::null_mut;

/// A handle to a host and the texts of its actors, or to none. In C it is a struct of one pointer, `rh_host` of include/ravenhost.h.
/// Letting one go that is to a host would leak that: take the host out first.
#[repr(C)]
#[derive(Drop)]
pub struct Handle {
    // Where it lies, or null.
    at: *mut u8,
    alloc: Global,
    // The host's history and the texts, or None where there is none.
    pub ghost value: { Option kept.Denot } by { coded_option kept.coded },
}

impl Model for Handle {
    ghost use Rattle.rv_handle.specs.Held.{held};
    ghost use Rattle.rv_kept.specs.contracts.kept.Kept.{the_row as kept};

    ghost also_owns = { λ h. held kept h.alloc h.at h.value };
}

impl Handle {
    // A handle to no host.
    fn empty(alloc: Global) -> Handle
        ensures { result.value ≡ None }
    {
        Handle {
            at: null_mut(),
            alloc,
        }
    }

    // A handle to the host of a box.
    fn of_loose(loose: Loose<Kept, Global>) -> Handle
        ensures { result.value ≡ Some loose.value }
    {
        let Loose { at, alloc } = loose;
        Handle {
            at: at.cast::<u8>(),
            alloc,
        }
    }

    // The box of the host.
    fn into_loose(self) -> Option<Loose<Kept, Global>>
        ensures { MatchOption result (self.value ≡ None) (λ loose. self.value ≡ Some loose.value) }
    {
        let Handle { at, alloc } = self;
        if at.is_null() {
            None
        } else {
            Some(Loose {
                at: at.cast::<Kept>(),
                alloc,
            })
        }
    }

    /// Takes the host out, or None where there is none. The handle is to none from then on.
    pub fn take(&mut self, alloc: Global) -> Option<Box<Kept>>
        ensures taken { MatchOption result (self.old.value ≡ None) (λ kept. self.old.value ≡ Some kept.value) }
        ensures empty { self.new.value ≡ None }
    {
        let held = replace(self, Handle::empty(alloc));
        match held.into_loose() {
            Some(loose) => Some(loose.into_box()),
            None => None,
        }
    }

    /// Puts a host in, where there is none.
    pub fn put(&mut self, kept: Box<Kept>)
        ensures { self.new.value ≡ Some kept.value }
    {
        *self = Handle::of_loose(Loose::of(kept));
    }
}
