//! A handle to a host on the heap, as C holds one: a struct of one pointer, which is null where there is no host.
#![tactic(auto)]

mod handle;
mod loose;

pub use handle::Handle;
