//! The subcommand `run`: alone, or with what is done beside its commands.

ghost use Rattle.std.specs.Prelude.{◌≡◌, IfOk};

use crate::attending::{attend, drained, unless_unkept};
use crate::errands::{grace_of, input_of, no_input, outlet_of, stop_of};
use crate::errors::StandardError;
use crate::keeping::{journal_file, syncing_of};
use crate::means::{Means, Terminals};
use crate::posts::outsiders_of;
use crate::reading::{Given, read_before};
use crate::series::{JournalFiles, unless_followed};
use crate::status::Stop;
use crate::telling::{Telling, ended, warn};
use rv_attend::{Attention, Beside, Filed, Follower, Typing};
use rv_check::warnings::run_warnings_of;
use rv_choice::actors::ActorWords;
use rv_choice::files::FileWords;
use rv_choice::selection::{KeptFile, RunWords, Sync};
use rv_fault::Failure;
use rv_feed::Listening;
use rv_input::{Before, Input};
use rv_keep::{Keeper, Syncing};
use rv_run::command::{of_input, of_io};
use rv_run::outputs::Outputs;
use rv_run::run::run;
use rv_series::Rotating;
use rv_staff::Hires;
use std::alloc::Global;
use std::io;
use std::io::{Read, Write};
use std::rt::Files;
use std::sync::Wait;
use std::thread::Threads;
use std::time::Clock;

// Whether what stands before the commands is looked at before the run.
fn needs_sections(telling: Telling) -> bool {
    telling.is_shown || telling.are_errors || telling.explains
}

// What had to be read of a run's input so that its notes could be told, which is done, and its fault explained.
fn told_before<R: Eprint, I: Read>(
    rt: &R,
    alloc: Global,
    telling: Telling,
    reader: &mut I,
) -> Result<Before, Stop> {
    if !needs_sections(telling) {
        return Ok(Before {
            sections: Vec::new(alloc),
            rest: Vec::new(alloc),
        });
    }
    match read_before(alloc, reader) {
        Ok(before) => {
            if telling.is_shown || telling.are_errors {
                warn(
                    rt,
                    telling,
                    run_warnings_of(alloc, before.sections.as_slice()),
                )?;
            }
            Ok(before)
        }
        Err(failure) => Err(Stop::Failed(failure)),
    }
}

/// Runs the host of a script, after its notes were told.
pub fn run_script<R: Threads + Wait + Eprint, H: Hires, I: Read, W: Write + Drop>(
    rt: &R,
    hires: &H,
    alloc: Global,
    telling: Telling,
    reader: &mut I,
    writer: W,
) -> Result<(), Stop> {
    let mut outputs = Outputs {
        writer,
        errors: StandardError {
            rt,
            is_coloured: telling.is_coloured,
        },
    };
    let before = told_before(rt, alloc, telling, reader)?;
    let script = before.sections.as_slice();
    let read = script.chain(before.rest.as_slice());
    let mut whole = read.chain(reader);
    let done = run(rt, hires, alloc, &mut whole, &mut outputs);
    ended(rt, alloc, telling, script, done)
}

// The input of an attended run, of which its file has come.
fn opened_input(alloc: Global, bytes: &[u8]) -> Result<Input, Stop>
    ensures { IfOk result (λ input. input ≡ record { ahead = bytes.now; given = 0 }) }
{
    let mut input = Input::new(alloc);
    match input.put(bytes) {
        Ok(()) => Ok(input),
        Err(_) => Err(Stop::Failed(Failure::Memory)),
    }
}

// Stops where what came of an input has no line `@run`, since it may have been cut off.
fn unless_cut<R: Eprint>(rt: &R, alloc: Global, input: &Input) -> Result<(), Stop> {
    let mut ahead = input.ahead();
    match Input::new(alloc).preamble(&mut ahead) {
        Ok(before) if before.runs => Ok(()),
        Ok(_) => {
            let _ = eprintln!(rt;
                "ravenhost: the input ended before its line @run, so nothing was started"
            );
            Err(Stop::CutOff)
        }
        Err(fault) => Err(Stop::Failed(of_input(fault))),
    }
}

// Hears what stands before the commands of an attended run, where it has to be whole or notes are to be told of it, and tells them.
fn told_of<R: Wait + Clock + Eprint>(
    rt: &R,
    alloc: Global,
    telling: Telling,
    wants_run: bool,
    source: &mut Listening<'_, R>,
    input: &mut Input,
) -> Result<Before, Stop> {
    if needs_sections(telling) || wants_run {
        if let Err(fault) = source.hear_sections(input) {
            return Err(Stop::Failed(of_input(fault)));
        }
    }
    if wants_run {
        unless_cut(rt, alloc, &*input)?;
    }
    let mut ahead = input.ahead();
    told_before(rt, alloc, telling, &mut ahead)
}

// How many list changes the operator has room for where units have a quota, unless that is said.
const OPERATOR_ROOM: u32 = 64;

// How many have their room kept; none without a quota, since units may then fill the journal.
fn room_of(words: &RunWords<'_>) -> Option<u32> {
    match words.quota {
        Some(_) => Some(words.operator_room.unwrap_or(OPERATOR_ROOM)),
        None => None,
    }
}

// What is asked of an attended run.
fn attention_of(words: &RunWords<'_>, telling: Telling, terminals: Terminals) -> Attention {
    let typing = if terminals.input {
        Typing::Shown
    } else {
        Typing::Echoed
    };
    Attention {
        period: words.tick.map(|millis| millis as u64),
        quota: words.quota,
        operator_room: room_of(words),
        halt_below: words.halt_below,
        grace: words.grace,
        lasting: words.lasting,
        tells: telling.tells,
        explains: telling.explains,
        console: if words.console { Some(typing) } else { None },
        columns: terminals.columns,
    }
}

// The names of the files that a run writes.
#[derive(Clone, Copy)]
struct Names<'a> {
    journal: &'a str,
    units: &'a str,
    times: &'a str,
}

impl<'a> Names<'a> {
    // Those that were given.
    fn given(journal: &'a str, files: FileWords<'a>) -> Names<'a> {
        Names {
            journal,
            units: files.units.unwrap_or(""),
            times: files.times.unwrap_or(""),
        }
    }

    // That of the file whose write failed.
    fn of(self, failed: Option<Beside>) -> &'a str {
        match failed {
            Some(Beside::Units) => self.units,
            Some(Beside::Times) => self.times,
            None => self.journal,
        }
    }
}

// Runs the host of a script, after its notes were told, and attends to it; its journal goes where a keeper writes it.
fn run_with<R, H, F>(
    rt: &R,
    means: Means<'_, H>,
    telling: Telling,
    words: RunWords<'_>,
    actors: &[ActorWords<'_>],
    given: &Given,
    keeper: Keeper<F>,
    filed: Filed<F>,
    names: Names<'_>,
) -> Result<(), Stop>
where
    R: Threads + Wait + Files + Clock + Eprint,
    H: Hires,
    F: Write + Drop,
{
    let alloc = means.alloc;
    let stop = stop_of(rt, alloc, means.aides, words.stop_by)?;
    let feed = if given.goes_on {
        input_of(rt, alloc, means.aides)?
    } else {
        no_input(rt, alloc)?
    };
    let mut source = Listening { rt, feed, stop };
    let mut input = opened_input(alloc, given.bytes.as_slice())?;
    let before = told_of(rt, alloc, telling, words.wants_run, &mut source, &mut input)?;
    let mut follower = Follower::new(
        alloc,
        source,
        keeper,
        attention_of(&words, telling, means.terminals),
    );
    follower.outsiders = outsiders_of(rt, alloc, means.aides, actors)?;
    follower.grace = grace_of(rt, alloc, means.aides, words.grace)?;
    follower.filed = filed;
    let mut outlet = outlet_of(rt, alloc, means.aides)?;
    let (done, flushed) = attend(
        rt,
        means.hires,
        telling.is_coloured,
        &mut input,
        &mut follower,
        &mut outlet,
    );
    let flushed = drained(&outlet, &done, flushed);
    let done = unless_unkept(rt, done, names.of(follower.filed.failed))?;
    ended(rt, alloc, telling, before.sections.as_slice(), done)?;
    match flushed {
        Ok(()) if follower.has_given_up() => Err(Stop::LeftBehind),
        Ok(()) if words.tells_end && follower.has_ended() => Err(Stop::EndedItself),
        Ok(()) => Ok(()),
        Err(e) => Err(Stop::Failed(of_io(e))),
    }
}

// What a run that is to last lacks, or can't have: it needs a file for its journal, and doesn't end as that fills.
fn unfit_lasting(words: &RunWords<'_>) -> Option<&'static str> {
    if !words.lasting {
        return None;
    }
    match (words.kept, words.halt_below) {
        (None, _) => Some("'--lasting' needs '--journal <FILE>'"),
        (_, Some(_)) => Some("'--lasting' goes without '--halt-below <N>'"),
        _ if words.quota.is_some() => Some("'--lasting' goes without '--quota <N>'"),
        _ => None,
    }
}

// Stops where the flags of a run don't go together.
fn unless_unfit<R: Eprint>(rt: &R, words: &RunWords<'_>) -> Result<(), Stop> {
    let unfit = match unfit_lasting(words) {
        Some(unfit) => unfit,
        None if words.operator_room.is_some() && words.quota.is_none() => {
            "'--operator-room <K>' needs '--quota <N>'"
        }
        None => return Ok(()),
    };
    let _ = eprintln!(rt; "error: {unfit}\n\nFor more information, try '--help'.");
    Err(Stop::Usage)
}

// How many bytes are in a MiB.
const MEBIBYTE: u64 = 1_048_576;

// A file that a run writes, from its first byte on: of at most so many MiB, where others may follow it.
fn files_from<'a, R: Files + Eprint>(
    rt: &'a R,
    alloc: Global,
    name: &'a str,
    rotate: Option<u32>,
    syncs: bool,
) -> Result<Rotating<JournalFiles<'a, R>>, Stop> {
    let file = journal_file(rt, name)?;
    let files = JournalFiles {
        rt,
        alloc,
        name,
        number: 0,
        syncs,
        file,
    };
    let most = match rotate {
        Some(rotate) => {
            unless_followed(rt, alloc, name)?;
            rotate as u64 * MEBIBYTE
        }
        None => u64::MAX,
    };
    Ok(Rotating::new(files, most))
}

// A file beside the journal, where one is named.
fn beside<'a, R: Files + Eprint>(
    rt: &'a R,
    alloc: Global,
    name: Option<&'a str>,
) -> Result<Option<Rotating<JournalFiles<'a, R>>>, Stop> {
    match name {
        Some(name) => Ok(Some(files_from(rt, alloc, name, None, true)?)),
        None => Ok(None),
    }
}

// These files beside the journal.
fn filed_in<F: Drop>(units: Option<F>, times: Option<F>) -> Filed<F> {
    let mut filed = Filed::none();
    filed.units = units;
    filed.times = times;
    filed
}

// Runs the host of a script whose journal is kept.
fn run_kept<'a, R: Threads + Wait + Files + Clock + Eprint, H: Hires>(
    rt: &'a R,
    means: Means<'_, H>,
    telling: Telling,
    words: RunWords<'_>,
    files: FileWords<'a>,
    actors: &[ActorWords<'_>],
    given: &Given,
    kept: KeptFile<'a>,
) -> Result<(), Stop> {
    let alloc = means.alloc;
    let syncs = kept.sync != Sync::Never;
    let file = files_from(rt, alloc, kept.name, files.rotate, syncs)?;
    let units = beside(rt, alloc, files.units)?;
    let times = beside(rt, alloc, files.times)?;
    let filed = filed_in(units, times);
    let keeper = Keeper::new(alloc, file, syncing_of(kept.sync));
    let names = Names::given(kept.name, files);
    run_with(
        rt, means, telling, words, actors, given, keeper, filed, names,
    )
}

/// Runs the host of a script, and attends to it; its journal is kept in a file, where one is named, and tasks may belong to other
/// processes.
pub fn run_attended<'a, R: Threads + Wait + Files + Clock + Eprint, H: Hires>(
    rt: &'a R,
    means: Means<'_, H>,
    telling: Telling,
    words: RunWords<'a>,
    files: FileWords<'a>,
    actors: &[ActorWords<'_>],
    given: &Given,
) -> Result<(), Stop> {
    unless_unfit(rt, &words)?;
    match words.kept {
        Some(kept) => run_kept(rt, means, telling, words, files, actors, given, kept),
        None => {
            let keeper = Keeper::new(means.alloc, io::sink(), Syncing::Never);
            let names = Names::given("the journal", files);
            run_with(
                rt,
                means,
                telling,
                words,
                actors,
                given,
                keeper,
                Filed::none(),
                names,
            )
        }
    }
}
