//! What the threads of this program do.

ghost use Rattle.std.specs.Prelude.{◌≡◌};
ghost use Rattle.thread_rows.specs.Fitting.{Fits};

use crate::crews::room_again::read_one;
use crate::crews::told_revoke::{ToldReader, read_told};
use crate::crews::two_readers::{Ends, read_beside, read_open};
use rv_port::port::{Finished, Port};
use std::sync::Wait;
use std::time::Clock;

/// What a thread does with the port of its actor.
#[derive(Drop)]
pub enum Role {
    /// It reads, is told of what changed meanwhile, and reads again.
    ToldReader(ToldReader),
    /// It reads, and its body stays open until another reader was answered.
    OpenReader(Ends),
    /// It reads while that body is open.
    Beside(Ends),
    /// It reads once.
    Reader,
}

/// Does what a role says, and finishes the port.
pub fn act<R: Wait + Clock>(rt: &R, port: Port, role: Role) -> Finished
    requires { Fits role port }
    ensures { (result.turn ≡ port.turn) × (result.actor ≡ port.actor) }
{
    match role {
        Role::ToldReader(reader) => read_told(rt, port, reader),
        Role::OpenReader(ends) => read_open(rt, port, ends),
        Role::Beside(ends) => read_beside(rt, port, ends),
        Role::Reader => read_one(rt, port),
    }
}
