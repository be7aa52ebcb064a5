//! The job of a task that belongs to another process.

ghost use Rattle.std.specs.Io.Iter.{lines_known_bytes};
ghost use Rattle.rv_port.specs.Calls.{Stays};
ghost use Rattle.rv_port.specs.Ports.{IsExplained, pass_of};
ghost use Rattle.rv_actor.specs.Serving.{ServesTask, at};

use crate::serving::{Desk, serve};
use rv_port::port::{Finished, Port};
use rv_shape::catalogue::Catalogue;
use std::io;
use std::io::{BufRead, Write};
use std::sync::Wait;

/// The job of a task that belongs to another process: it serves the request lines of that, and finishes. The names in them are
/// those of a catalogue. It gives how the lines ended, too.
///
/// # Errors
/// As `serve`; the port is finished all the same.
pub fn actor_task<R: Wait, I: BufRead + Drop, W: Write>(
    rt: &R,
    mut port: Port,
    catalogue: &Catalogue,
    desk: &mut Desk<I, W>,
) -> (Finished, io::Result<()>)
    ensures serves { ServesTask catalogue.now
        (at port (lines_known_bytes I.remaining desk.old.lines) (W.contents desk.old.writer))
        (at result.0 (lines_known_bytes I.remaining desk.new.lines) (W.contents desk.new.writer))
        result.1 }
    ensures stays { Stays (pass_of port) (pass_of result.0) }
    ensures explained { IsExplained result.0 }
{
    let served = serve(rt, &mut port, catalogue, desk);
    (port.finish(rt), served)
}
