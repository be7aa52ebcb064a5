//! The command line that the program takes.

ghost use Rattle.std.specs.Prelude.{◌≡◌, false, IfOk, IsOkAnd};
ghost use Rattle.clap.specs.Words.{app_of, with_subcommand};
ghost use Rattle.clap.specs.declared.builder.command.Command.TheViews.{out-Command as fields_of};
ghost use Rattle.rv_inquiry.specs.Inquiries.{alone, of_entries, of_lines, of_one, of_rights, program};

use crate::subcommands::{
    access, explain, export, hits, refusals, state, timeline, waits, what_if, who,
};
use clap::Command;
use std::alloc::{AllocError, Global};

/// The version of the program, which is that of `ravenhost`.
pub const VERSION: &str = "1.0.0";

// The program, of which no subcommand is named yet.
fn program_alone<'a>(alloc: Global) -> Command<'a>
    ensures { app_of result ≡ alone }
{
    Command::new(alloc, "ravenreview")
        .about("Questions about a journal, answered by the rules that judge it")
        .version(VERSION)
        .subcommand_required(true)
}

// A command with a subcommand, where memory for that wasn't refused.
fn with_added<'a>(
    command: Command<'a>,
    added: Result<Command<'a>, AllocError>,
) -> Result<Command<'a>, AllocError>
    requires { IfOk added (λ s. (fields_of s).has_globals ≡ false) }
    ensures { IfOk result (λ c. IsOkAnd added.entry (λ s. app_of c ≡ with_subcommand (app_of command.entry) (app_of s).top)) }
{
    match added {
        Ok(subcommand) => command.subcommand(subcommand),
        Err(e) => Err(e),
    }
}

// The program with the subcommands that are of entries.
fn of_entries<'a>(alloc: Global) -> Result<Command<'a>, AllocError>
    ensures { IfOk result (λ c. app_of c ≡ of_entries) }
{
    let command = program_alone(alloc);
    let command = with_added(command, refusals(alloc))?;
    with_added(command, waits(alloc))
}

// And with those of who may call what.
fn of_rights<'a>(alloc: Global) -> Result<Command<'a>, AllocError>
    ensures { IfOk result (λ c. app_of c ≡ of_rights) }
{
    let command = of_entries(alloc)?;
    let command = with_added(command, access(alloc))?;
    with_added(command, who(alloc))
}

// And with those of lines and lists.
fn of_lines<'a>(alloc: Global) -> Result<Command<'a>, AllocError>
    ensures { IfOk result (λ c. app_of c ≡ of_lines) }
{
    let command = of_rights(alloc)?;
    let command = with_added(command, hits(alloc))?;
    with_added(command, what_if(alloc))
}

// And with those of one entry.
fn of_one<'a>(alloc: Global) -> Result<Command<'a>, AllocError>
    ensures { IfOk result (λ c. app_of c ≡ of_one) }
{
    let command = of_lines(alloc)?;
    let command = with_added(command, state(alloc))?;
    let command = with_added(command, explain(alloc))?;
    with_added(command, timeline(alloc))
}

/// The command line that the program takes.
pub fn command<'a>(alloc: Global) -> Result<Command<'a>, AllocError>
    ensures { IfOk result (λ c. app_of c ≡ program) }
{
    let command = of_one(alloc)?;
    with_added(command, export(alloc))
}
