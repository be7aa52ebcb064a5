//! The subcommand `run`, flag by flag.

ghost use Rattle.std.specs.Prelude.{◌≡◌, false, IfOk};
ghost use Rattle.clap.specs.Words.{app_of};
ghost use Rattle.clap.specs.declared.builder.command.Command.TheViews.{out-Command as fields_of};
ghost use Rattle.rv_choice.specs.Choices.{acting, attending, consoled, ending, filing, guarding, hurried, keeping, lasting, reserving, running};

use crate::args::{
    coloured, explained, file_arg, flag, noted, sync_arg, with_file, with_value, with_values,
};
use clap::Command;
use std::alloc::{AllocError, Global};

// The subcommand `run`, which may keep its journal in a file, and explain a fault.
fn keeping_subcommand<'a>(alloc: Global) -> Result<Command<'a>, AllocError>
    ensures app { IfOk result (λ c. app_of c ≡ keeping) }
    ensures local { IfOk result (λ c. (fields_of c).has_globals ≡ false) }
{
    let journal = file_arg(
        alloc,
        "Write the journal into this file as it comes; the file must be new or empty",
    );
    let command = Command::new(alloc, "run")
        .about("Run the host of a script, and serve the commands that follow its line @run")
        .after_help("Example: ravenhost run examples/plant.raven")
        .arg(journal)?
        .arg(sync_arg(alloc))?;
    explained(alloc, command)
}

// The same, which may be told what to do as its journal fills.
fn guarding_subcommand<'a>(alloc: Global) -> Result<Command<'a>, AllocError>
    ensures app { IfOk result (λ c. app_of c ≡ guarding) }
    ensures local { IfOk result (λ c. (fields_of c).has_globals ≡ false) }
{
    let command = with_value(
        alloc,
        keeping_subcommand(alloc)?,
        "halt-below",
        "N",
        "End as by quit when the journal has room for fewer than N entries",
    )?;
    with_value(
        alloc,
        command,
        "quota",
        "N",
        "Let each unit spend N entries at most: what its tasks and bodies ask behind them is answered full",
    )
}

// The same, which may be told how many list changes its operator has room for.
fn reserving_subcommand<'a>(alloc: Global) -> Result<Command<'a>, AllocError>
    ensures app { IfOk result (λ c. app_of c ≡ reserving) }
    ensures local { IfOk result (λ c. (fields_of c).has_globals ≡ false) }
{
    with_value(
        alloc,
        guarding_subcommand(alloc)?,
        "operator-room",
        "K",
        "With --quota: keep room for K list changes, whatever units do; 64 where this isn't said",
    )
}

// The same, whose clock may follow a real one, and which may be ended from outside.
fn attending_subcommand<'a>(alloc: Global) -> Result<Command<'a>, AllocError>
    ensures app { IfOk result (λ c. app_of c ≡ attending) }
    ensures local { IfOk result (λ c. (fields_of c).has_globals ≡ false) }
{
    let command = with_value(
        alloc,
        reserving_subcommand(alloc)?,
        "tick",
        "MS",
        "Have the clock follow the real one, a tick a millisecond: every MS milliseconds one tick MS",
    )?;
    with_value(
        alloc,
        command,
        "stop-by",
        "PIPE",
        "End as at the end of input once this pipe has a byte or ends; the script ./ravenhost gives it, for signals",
    )
}

// The same, which may serve a person by a console.
fn consoled_subcommand<'a>(alloc: Global) -> Result<Command<'a>, AllocError>
    ensures app { IfOk result (λ c. app_of c ≡ consoled) }
    ensures local { IfOk result (λ c. (fields_of c).has_globals ≡ false) }
{
    let command = attending_subcommand(alloc)?;
    let console = flag(
        alloc,
        "console",
        "Serve a person: a prompt before each command, and help, list, status and journal alone beside the commands",
    );
    command.arg(console)
}

// The same, whose status may say more of how it ended, and whose sections have to be whole.
fn ending_subcommand<'a>(alloc: Global) -> Result<Command<'a>, AllocError>
    ensures app { IfOk result (λ c. app_of c ≡ ending) }
    ensures local { IfOk result (λ c. (fields_of c).has_globals ≡ false) }
{
    let end = flag(
        alloc,
        "end-status",
        "End with status 5 where the run ended by itself: by --halt-below, behind its last command, or at a line that is none",
    );
    let run = flag(
        alloc,
        "sections-end",
        "Start nothing where the input ends before its line @run, since it may have been cut off; status 1",
    );
    consoled_subcommand(alloc)?.arg(end)?.arg(run)
}

// The same, whose end may wait for threads no longer than a while.
fn hurried_subcommand<'a>(alloc: Global) -> Result<Command<'a>, AllocError>
    ensures app { IfOk result (λ c. app_of c ≡ hurried) }
    ensures local { IfOk result (λ c. (fields_of c).has_globals ≡ false) }
{
    with_value(
        alloc,
        ending_subcommand(alloc)?,
        "grace",
        "MS",
        "Wait at the end at most MS milliseconds for threads; a line 'lost ACTOR' names each that is left behind, and the status is 6",
    )
}

// The same, whose journal may go on without end.
fn lasting_subcommand<'a>(alloc: Global) -> Result<Command<'a>, AllocError>
    ensures app { IfOk result (λ c. app_of c ≡ lasting) }
    ensures local { IfOk result (λ c. (fields_of c).has_globals ≡ false) }
{
    let command = hurried_subcommand(alloc)?;
    let lasting = flag(
        alloc,
        "lasting",
        "With --journal: give the journal's entries up once the file has them, so that its room comes again, and the run goes on without end",
    );
    command.arg(lasting)
}

// The same, of which tasks may belong to other processes.
fn acting_subcommand<'a>(alloc: Global) -> Result<Command<'a>, AllocError>
    ensures app { IfOk result (λ c. app_of c ≡ acting) }
    ensures local { IfOk result (λ c. (fields_of c).has_globals ≡ false) }
{
    with_values(
        alloc,
        lasting_subcommand(alloc)?,
        "actor",
        "TASK=IN,OUT",
        "Give the task, as Plant.Sensor, to a process, which writes requests to the pipe IN, and reads from OUT what they came to; repeatable",
    )
}

// The same, whose journal may stand in several files, and which may write its units, and when entries were written, into others.
fn filing_subcommand<'a>(alloc: Global) -> Result<Command<'a>, AllocError>
    ensures app { IfOk result (λ c. app_of c ≡ filing) }
    ensures local { IfOk result (λ c. (fields_of c).has_globals ≡ false) }
{
    let command = with_value(
        alloc,
        acting_subcommand(alloc)?,
        "rotate",
        "MIB",
        "With --journal: go on in FILE.000001, FILE.000002 and so on, each new and of at most MIB MiB of whole lines",
    )?;
    let command = with_value(
        alloc,
        command,
        "keep-units",
        "FILE",
        "With --journal: write the settings and each unit that is loaded into this file, which must be new or empty; audit judges over it",
    )?;
    with_value(
        alloc,
        command,
        "times",
        "FILE",
        "With --journal: write into this file, which must be new or empty, by which time entries were written, once a second and at each command",
    )
}

/// The same, which may be told of notes.
pub fn run_subcommand<'a>(alloc: Global) -> Result<Command<'a>, AllocError>
    ensures app { IfOk result (λ c. app_of c ≡ running) }
    ensures local { IfOk result (λ c. (fields_of c).has_globals ≡ false) }
{
    let command = filing_subcommand(alloc)?;
    let command = noted(alloc, command)?;
    let command = coloured(alloc, command)?;
    with_file(
        alloc,
        command,
        "Read the script from this file, and from standard input the commands behind those that it has",
    )
}
