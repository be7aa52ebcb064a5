//! The subcommands.

ghost use Rattle.std.specs.Prelude.{◌≡◌, false, codes, IfOk};
ghost use Rattle.clap.specs.Words.{app_of};
ghost use Rattle.clap.specs.declared.builder.command.Command.TheViews.{out-Command as fields_of};
ghost use Rattle.rv_inquiry.specs.Inquiries.{access_app, entry_app, export_app, filtered_app, timeline_app, what_if_app, who_app};

use crate::args::{
    about_entry, about_list, against_list, as_json, drawn, filtered, named, over_journal, since,
    spanned,
};
use clap::Command;
use std::alloc::{AllocError, Global};

// A subcommand of this name, which may be told which entries are asked for.
fn filtered_question<'a>(
    alloc: Global,
    name: &'a str,
    about: &'a str,
    example: &'a str,
) -> Result<Command<'a>, AllocError>
    ensures app { IfOk result (λ c. app_of c ≡ filtered_app name.now) }
    ensures local { IfOk result (λ c. (fields_of c).has_globals ≡ false) }
{
    let command = Command::new(alloc, name).about(about).after_help(example);
    let command = over_journal(alloc, command)?;
    let command = since(alloc, command)?;
    filtered(alloc, command)
}

/// The subcommand `refusals`.
pub fn refusals<'a>(alloc: Global) -> Result<Command<'a>, AllocError>
    ensures app { IfOk result (λ c. app_of c ≡ filtered_app (codes "refusals")) }
    ensures local { IfOk result (λ c. (fields_of c).has_globals ≡ false) }
{
    filtered_question(
        alloc,
        "refusals",
        "Say which entries were refused, by which rule and which line of the list",
        "Example: ravenhost refusals --journal JOURNAL --of Store.Tank < UNITS",
    )
}

/// The subcommand `waits`.
pub fn waits<'a>(alloc: Global) -> Result<Command<'a>, AllocError>
    ensures app { IfOk result (λ c. app_of c ≡ filtered_app (codes "waits")) }
    ensures local { IfOk result (λ c. (fields_of c).has_globals ≡ false) }
{
    filtered_question(
        alloc,
        "waits",
        "Say who waited in queues and on suspension objects and for how long, and how long objects were held",
        "Example: ravenhost waits --journal JOURNAL --by Store.Pump < UNITS",
    )
}

/// The subcommand `access`.
pub fn access<'a>(alloc: Global) -> Result<Command<'a>, AllocError>
    ensures app { IfOk result (λ c. app_of c ≡ access_app) }
    ensures local { IfOk result (λ c. (fields_of c).has_globals ≡ false) }
{
    let command = Command::new(alloc, "access")
        .about(
            "Say who may call what by the last list of a journal, from which tick on, and by which line",
        )
        .after_help("Example: ravenhost access --journal JOURNAL --by Store < UNITS");
    let command = over_journal(alloc, command)?;
    let command = filtered(alloc, command)?;
    let command = against_list(alloc, command)?;
    as_json(alloc, command)
}

/// The subcommand `who`.
pub fn who<'a>(alloc: Global) -> Result<Command<'a>, AllocError>
    ensures app { IfOk result (λ c. app_of c ≡ who_app) }
    ensures local { IfOk result (λ c. (fields_of c).has_globals ≡ false) }
{
    let command = Command::new(alloc, "who")
        .about("Say who may call a unit, an object or an operation, as access does")
        .after_help("Example: ravenhost who Store.Tank.Fill --journal JOURNAL < UNITS");
    let command = over_journal(alloc, command)?;
    let command = named(alloc, command)?;
    as_json(alloc, command)
}

// A subcommand of this name that is about an entry.
fn entry_question<'a>(
    alloc: Global,
    name: &'a str,
    about: &'a str,
    help: &'a str,
    example: &'a str,
) -> Result<Command<'a>, AllocError>
    ensures app { IfOk result (λ c. app_of c ≡ entry_app name.now) }
    ensures local { IfOk result (λ c. (fields_of c).has_globals ≡ false) }
{
    let command = Command::new(alloc, name).about(about).after_help(example);
    let command = over_journal(alloc, command)?;
    about_entry(alloc, command, help)
}

/// The subcommand `state`.
pub fn state<'a>(alloc: Global) -> Result<Command<'a>, AllocError>
    ensures app { IfOk result (λ c. app_of c ≡ entry_app (codes "state")) }
    ensures local { IfOk result (λ c. (fields_of c).has_globals ≡ false) }
{
    entry_question(
        alloc,
        "state",
        "Say what stands behind an entry: the clock, the list, components, and who holds, waits and delays",
        "The number of the entry; 0 is before the first",
        "Example: ravenhost state 17 --journal JOURNAL < UNITS",
    )
}

/// The subcommand `explain`.
pub fn explain<'a>(alloc: Global) -> Result<Command<'a>, AllocError>
    ensures app { IfOk result (λ c. app_of c ≡ entry_app (codes "explain")) }
    ensures local { IfOk result (λ c. (fields_of c).has_globals ≡ false) }
{
    entry_question(
        alloc,
        "explain",
        "Say why an entry was answered as it was, by which rule, line and section of the standard, and what became of it",
        "The number of the entry; the first is 1",
        "Example: ravenhost explain 17 --journal JOURNAL < UNITS",
    )
}

/// The subcommand `hits`.
pub fn hits<'a>(alloc: Global) -> Result<Command<'a>, AllocError>
    ensures app { IfOk result (λ c. app_of c ≡ filtered_app (codes "hits")) }
    ensures local { IfOk result (λ c. (fields_of c).has_globals ≡ false) }
{
    filtered_question(
        alloc,
        "hits",
        "Say how often each line of the lists decided and granted, and which lines never did",
        "Example: ravenhost hits --journal JOURNAL --of Store.Tank < UNITS",
    )
}

/// The subcommand `whatif`.
pub fn what_if<'a>(alloc: Global) -> Result<Command<'a>, AllocError>
    ensures app { IfOk result (λ c. app_of c ≡ what_if_app) }
    ensures local { IfOk result (λ c. (fields_of c).has_globals ≡ false) }
{
    let command = filtered_question(
        alloc,
        "whatif",
        "Say which calls, fired lines and hand-overs another list would have decided otherwise",
        "Example: ravenhost whatif LIST --journal JOURNAL < UNITS",
    )?;
    about_list(alloc, command)
}

/// The subcommand `timeline`.
pub fn timeline<'a>(alloc: Global) -> Result<Command<'a>, AllocError>
    ensures app { IfOk result (λ c. app_of c ≡ timeline_app) }
    ensures local { IfOk result (λ c. (fields_of c).has_globals ≡ false) }
{
    let command = Command::new(alloc, "timeline")
        .about("Show who held, waited, was delayed and was refused when, entry by entry")
        .after_help(
            "Example: ravenhost timeline --svg --from 10 --to 90 --journal JOURNAL < UNITS",
        );
    let command = over_journal(alloc, command)?;
    let command = filtered(alloc, command)?;
    let command = spanned(alloc, command)?;
    drawn(alloc, command)
}

/// The subcommand `export`.
pub fn export<'a>(alloc: Global) -> Result<Command<'a>, AllocError>
    ensures app { IfOk result (λ c. app_of c ≡ export_app) }
    ensures local { IfOk result (λ c. (fields_of c).has_globals ≡ false) }
{
    let command = Command::new(alloc, "export")
        .about("Write each entry as a line of JSON, with what follows from the entries before it")
        .after_help("Example: ravenhost export --journal JOURNAL < UNITS | jq .caller");
    over_journal(alloc, command)
}
