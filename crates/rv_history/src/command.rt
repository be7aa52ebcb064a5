//! Commands: what may be asked of a host, one after another.

use rv_access::Change;
use rv_event::entry::Request;
use rv_shape::shape::UnitShape;

/// A command, each a call of the host.
#[derive(Drop)]
pub enum Command {
    /// A request of an actor.
    Ask(usize, Request),
    /// The load of a unit, by the operator.
    Load(UnitShape),
    /// A change of the access list, by the operator.
    Change(Change),
}
