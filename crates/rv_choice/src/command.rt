//! The command line that the program takes.

ghost use Rattle.std.specs.Prelude.{◌≡◌, false, IfOk, IsOkAnd};
ghost use Rattle.clap.specs.Words.{app_of, with_subcommand};
ghost use Rattle.clap.specs.declared.builder.command.Command.TheViews.{out-Command as fields_of};
ghost use Rattle.rv_choice.specs.Choices.{alone, program};

use crate::running::run_subcommand;
use crate::subcommands::{audit_subcommand, check_subcommand, manual_subcommand, play_subcommand};
use clap::Command;
use std::alloc::{AllocError, Global};

/// The version of the program. The launcher adds whether it is proved, and the kit that built it.
pub const VERSION: &str = "1.0.0";

// The program, of which no subcommand is named yet.
fn program_alone<'a>(alloc: Global) -> Command<'a>
    ensures { app_of result ≡ alone }
{
    Command::new(alloc, "ravenhost")
        .about("Protected objects of several units under an access list, in the profile Ravenscar")
        .version(VERSION)
        .subcommand_required(true)
}

// A command with a subcommand, where memory for that wasn't refused. Who adds one holds nothing else that has to be let go.
fn with_added<'a>(
    command: Command<'a>,
    added: Result<Command<'a>, AllocError>,
) -> Result<Command<'a>, AllocError>
    requires { IfOk added (λ s. (fields_of s).has_globals ≡ false) }
    ensures { IfOk result (λ c. IsOkAnd added.entry (λ s. app_of c ≡ with_subcommand (app_of command.entry) (app_of s).top)) }
{
    match added {
        Ok(subcommand) => command.subcommand(subcommand),
        Err(e) => Err(e),
    }
}

/// The command line that the program takes.
pub fn command<'a>(alloc: Global) -> Result<Command<'a>, AllocError>
    ensures { IfOk result (λ c. app_of c ≡ program) }
{
    let command = program_alone(alloc);
    let command = with_added(command, play_subcommand(alloc))?;
    let command = with_added(command, check_subcommand(alloc))?;
    let command = with_added(command, run_subcommand(alloc))?;
    let command = with_added(command, audit_subcommand(alloc))?;
    with_added(command, manual_subcommand(alloc))
}
