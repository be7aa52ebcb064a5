//! A run whose reads and writes fail, each in turn.

use row_files::failing::{FailingReader, FailingWriter};
use rv_fault::Failure;
use rv_run::outputs::Outputs;
use rv_run::run::run;
use rv_staff::Hires;
use std::alloc::Global;
use std::io;
use std::sync::Wait;
use std::thread::Threads;

// A script without tasks: of each way to say something one.
const SCRIPT: &[u8] =
    b"@unit\npackage P is end; package body P is end;\n@list\nallow * * *\n@run\ntick 1\njournal 1\nbad\nquit\n";

// What a run writes for it.
const DUE: &[u8] =
    b"accepted 0\n1 operator load P -> accepted 0\n2 operator list [allow * * *] -> accepted 0\n3 operator tick 1 -> accepted 0\nbad command\nentries 4\n";

// How many reads and writes are made to fail at most.
const MOST_FAILURES: usize = 1_000;

// Runs the script with so many good reads and writes. Whether it ended with a failed one; none where what was written
// doesn't begin what has to be.
fn fails<T: Threads + Wait, H: Hires>(
    rt: &T,
    hires: &H,
    alloc: Global,
    reads: usize,
    writes: usize,
) -> Option<bool> {
    let mut reader = FailingReader::new(SCRIPT, reads);
    let mut outputs = Outputs {
        writer: FailingWriter::new(alloc, writes),
        errors: Vec::<u8>::new(alloc),
    };
    let outcome = run(rt, hires, alloc, &mut reader, &mut outputs);
    let taken = outputs.writer.taken.as_slice();
    if !DUE.starts_with(taken) {
        return None;
    }
    match outcome {
        Err(Failure::Io(_)) => Some(true),
        Ok(()) if taken.len() == DUE.len() => Some(false),
        _ => None,
    }
}

// How many reads the script takes, each of which was made to fail.
fn reads_of<T: Threads + Wait, H: Hires>(rt: &T, hires: &H, alloc: Global) -> Option<usize> {
    for good in 0..MOST_FAILURES {
        if !fails(rt, hires, alloc, good, MOST_FAILURES)? {
            return Some(good);
        }
    }
    None
}

// The same of writes.
fn writes_of<T: Threads + Wait, H: Hires>(rt: &T, hires: &H, alloc: Global) -> Option<usize> {
    for good in 0..MOST_FAILURES {
        if !fails(rt, hires, alloc, MOST_FAILURES, good)? {
            return Some(good);
        }
    }
    None
}

/// Whether each failed read and write of a run is told, behind a prefix of what has to be written, in words.
pub fn failures_told<T: Threads + Wait, H: Hires>(
    rt: &T,
    hires: &H,
    alloc: Global,
) -> io::Result<String> {
    match (reads_of(rt, hires, alloc), writes_of(rt, hires, alloc)) {
        (Some(reads), Some(writes)) => {
            Ok(format!(in alloc; "{reads} failed reads and {writes} failed writes: ok")?)
        }
        _ => Ok(String::from_str(alloc, "a failed read or write isn't told as it should be")?),
    }
}
