//! What is told of a game of a crew once it is closed: its journal, whose ports came back, and whose were lost.

use rv_crew::crew::Closed;
use rv_host::host::Host;
use rv_keep::{Keeper, Syncing};
use std::alloc::Global;
use std::io;

/// The journal of a host, as text, without what was given up. None where there is no memory.
pub fn journal_of(alloc: Global, host: &Host) -> Option<String> {
    let mut keeper = Keeper::new(alloc, Vec::<u8>::new(alloc), Syncing::Never);
    keeper.next = host.archived().checked_add(1)?;
    keeper.put_rest(host).ok()?;
    let text = str::from_utf8(keeper.file.as_slice()).ok()?;
    String::from_str(alloc, text).ok()
}

// Tells of actors, each in a line.
fn tell_each<R: Print>(rt: &R, word: &str, actors: &[u64]) -> io::Result<()> {
    for actor in actors {
        println!(rt; "{word}: actor {actor}")?;
    }
    Ok(())
}

// Tells of a crew that was closed.
fn tell_closed<R: Print>(rt: &R, alloc: Global, closed: &Closed) -> io::Result<()> {
    if let Some(text) = journal_of(alloc, &closed.host) {
        print!(rt; "{text}")?;
    }
    tell_each(rt, "came back", &closed.finished)?;
    tell_each(rt, "lost", &closed.lost)
}

/// Tells of a game.
pub fn tell<R: Print + AllocGlobal>(rt: &R, name: &str, closed: Option<Closed>) -> io::Result<()> {
    println!(rt; "{name}")?;
    match closed {
        Some(closed) => tell_closed(rt, rt.alloc(), &closed),
        None => println!(rt; "failed"),
    }
}
