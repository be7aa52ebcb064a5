//! A caller of a plain host: it loads units, sets a list, makes calls and ends, and reads the journal.

ghost use Rattle.std.specs.Prelude.{◌≡◌, ◌∷◌, []};
ghost use Rattle.rv_event.specs.declared.entry.Request.TheVariants.{Call};
ghost use Rattle.rv_history.specs.Due as due;

use rv_access::read_list;
use rv_event::entry::{Answer, Exit, Request};
use rv_event::text::entry_text;
use rv_host::host::Host;
use rv_host::pages::{Item, Page};
use rv_shape::reading::read_shape;
use rv_value::{Args, Scalars};
use std::alloc::{AllocError, Global};
use std::io;

// How many entries the journal has room for.
const CAPACITY: usize = 100;

const PLANT: &str = "unit Plant
protected Valve 20
scalar 0 100 7
function Get 0 100
procedure Set in 0 100
";

const NAV: &str = "unit Nav
task Pilot 15
";

const LIST: &str = "allow Nav Plant.Valve *
deny Nav Plant.Valve Set
";

// Loads both units, and sets the list. None where one isn't taken.
fn set_up(alloc: Global, host: &mut Host) -> Option<()> {
    let _ = host.load(&read_shape(alloc, PLANT).ok()?);
    let _ = host.load(&read_shape(alloc, NAV).ok()?);
    let _ = host.set_list(&read_list(alloc, LIST).ok()?);
    Some(())
}

// Who calls, and whose operations, by number.
#[derive(Clone, Copy, Drop)]
struct Numbers {
    pilot: usize,
    valve: usize,
    get: usize,
    set: usize,
}

// These numbers, which the host gave when the units were loaded.
fn numbers_of(host: &Host) -> Option<Numbers> {
    let catalogue = host.catalogue();
    let valve = catalogue.find_object("Plant.Valve")?;
    Some(Numbers {
        pilot: catalogue.find_task("Nav.Pilot")?,
        valve,
        get: catalogue.find_operation(valve, "Get")?,
        set: catalogue.find_operation(valve, "Set")?,
    })
}

// Calls a function, whose body returns the first component. The answer is that of the call.
fn read(host: &mut Host, numbers: Numbers) -> Answer
    ensures { result ≡ due.out host.old numbers.pilot (Call numbers.valve numbers.get []) }
{
    let request = Request::Call(numbers.valve, numbers.get, Args::new());
    let answer = host.step(numbers.pilot, request);
    if let Answer::Started(scalars) = answer {
        let value = scalars.get(0).unwrap_or(0);
        let exit = Exit::Return(Args::from_slice(&[value]));
        let _ = host.step(numbers.pilot, Request::Complete(Scalars::new(), exit));
    }
    answer
}

// Calls a procedure with a value, which becomes the component. The answer is that of the call.
fn write(host: &mut Host, numbers: Numbers, value: i64) -> Answer
    ensures { result ≡ due.out host.old numbers.pilot (Call numbers.valve numbers.set (value ∷ [])) }
{
    let request = Request::Call(numbers.valve, numbers.set, Args::from_slice(&[value]));
    let answer = host.step(numbers.pilot, request);
    if let Answer::Started(_) = answer {
        let exit = Exit::Return(Args::new());
        let ended = Request::Complete(Scalars::from_slice(&[value]), exit);
        let _ = host.step(numbers.pilot, ended);
    }
    answer
}

// Prints what came of a call.
fn tell<R: Print>(rt: &R, operation: &str, answer: &Answer) -> io::Result<()> {
    match answer {
        Answer::Started(_) => println!(rt; "{operation}: carried out"),
        Answer::Refused(rule, line, version) => println!(rt;
            "{operation}: refused by {rule:?}, line {line} of version {version}"
        ),
        _ => println!(rt; "{operation}: not now"),
    }
}

// The line of a journal's entry.
fn line_of(alloc: Global, host: &Host, number: usize, item: &Item) -> Result<String, AllocError> {
    let words = item.words();
    entry_text(alloc, host.catalogue(), number, &item.entry(), words, words)
}

// Prints the first page of the journal: up to 50 entries.
fn tell_journal<R: Print>(rt: &R, alloc: Global, host: &Host) -> io::Result<()> {
    let mut page = Page::new(alloc);
    host.entries(alloc, 1, &mut page)?;
    let mut number = 0usize;
    for item in page.items() {
        number = number.saturating_add(1);
        let line = line_of(alloc, host, number, item)?;
        print!(rt; "{line}")?;
    }
    Ok(())
}

// Reads the valve, and is refused to write it.
fn call_both<R: Print>(rt: &R, host: &mut Host, numbers: Numbers) -> io::Result<()> {
    let answer = read(host, numbers);
    tell(rt, "Get", &answer)?;
    let answer = write(host, numbers, 9);
    tell(rt, "Set", &answer)
}

// Plays on a host.
fn play_on<R: Print>(rt: &R, alloc: Global, host: &mut Host) -> io::Result<()> {
    if set_up(alloc, host).is_none() {
        return println!(rt; "no memory for the units");
    }
    match numbers_of(host) {
        Some(numbers) => call_both(rt, host, numbers)?,
        None => println!(rt; "the units aren't there")?,
    }
    tell_journal(rt, alloc, host)
}

/// Loads units, reads a valve and is refused to write it; prints what each call came to, and the journal.
pub fn play<R: AllocGlobal + Print>(rt: &R) -> io::Result<()> {
    let alloc = rt.alloc();
    match Host::new(alloc, CAPACITY) {
        Ok(mut host) => play_on(rt, alloc, &mut host),
        Err(fault) => println!(rt; "no host: {fault}"),
    }
}
