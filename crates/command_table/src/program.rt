//! The program with its commands.

ghost use Rattle.std.specs.Prelude.{IfOk, []};
ghost use Rattle.command_table.specs.Commands as table;
ghost use Rattle.command_table.specs.Commands.{IsProgram};

use crate::{at, check, envelope, find, list, order, refute, samples, settle};
use clap::Command;
use std::alloc::{AllocError, Global};

const HELP: &str = "\
Answers go to standard output, and faults to standard error, one line each. A command that is
called again with --human says more of a fault.

Status:   0 done, or yes; 1 no; 2 an input is refused; 3 out of memory; 4 a file can't be opened,
          or a device failed; 5 the command line is refused
Example:  ntpaudit list recording.pcap
More:     man ntpaudit";

/// The program without its commands.
fn bare<'a>(alloc: Global, version: &'a str) -> Command<'a>
    ensures { IsProgram (table.program_of []) result }
{
    Command::new(alloc, "ntpaudit")
        .version(version)
        .about("What a packet capture of NTP shows about a clock")
        .after_help(HELP)
        .subcommand_required(true)
}

/// The program with one more command.
fn with<'a>(
    program: Command<'a>,
    command: Result<Command<'a>, AllocError>,
) -> Result<Command<'a>, AllocError>
    ensures { IfOk result (table.IsWith program.entry command.entry) }
{
    program.subcommand(command?)
}

/// The program of this version with its commands, those that judge a claim behind the others. The
/// only error is that it is out of memory.
pub fn ntpaudit<'a>(alloc: Global, version: &'a str) -> Result<Command<'a>, AllocError>
    ensures { IfOk result (IsProgram table.ntpaudit) }
{
    let program = bare(alloc, version);
    let program = with(program, list::declaration(alloc))?;
    let program = with(program, samples::declaration(alloc))?;
    let program = with(program, at::declaration(alloc))?;
    let program = with(program, order::declaration(alloc))?;
    let program = with(program, settle::declaration(alloc))?;
    let program = with(program, check::declaration(alloc))?;
    let program = with(program, find::declaration(alloc))?;
    let program = with(program, refute::declaration(alloc))?;
    with(program, envelope::declaration(alloc))
}
