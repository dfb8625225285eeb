//! The command `envelope`.

ghost use Rattle.std.specs.Prelude.{IfOk};
ghost use Rattle.command_table.specs.Commands as table;

use crate::argument::{flag, step_option};
use crate::evidence::evidence_command;
use clap::Command;
use std::alloc::{AllocError, Global};

const HELP: &str = "\
Prints:   a line for each piece, `K FROM TO LOW HIGH`, `K FROM TO unbounded` or `K FROM TO empty`:
          the clock's error, from LOW to HIGH ticks of 2^-32 s; then `bound_ns N piece K`, the
          least bound that holds, or `bound_ns none piece K`. The claim's bound is ignored. With
          --human milliseconds and times as 2026-11-22T06:46:09Z, in columns under a heading
Status:   0 a bound holds; 1 none; 2 an input is refused, or there are over 100000 pieces; 3 out of
          memory; 4 a file or the output failed; 5 the command line is refused
Example:  ntpaudit envelope claim.json recording.pcap --step 8
More:     man ntpaudit";

/// The command, its operands and options.
pub(crate) fn declaration<'a>(alloc: Global) -> Result<Command<'a>, AllocError>
    ensures { IfOk result (table.IsDeclared table.envelope) }
{
    let step = "Seconds of each piece, 1 to 86400";
    let servers = "Print before each piece what each server says about it, `K SERVER LOW HIGH`";
    let least = "Print last the least bound that pieces of any length carry, `least_ns N piece K`";
    let about = "Print how far off the clock may have been, piece by piece";
    evidence_command(alloc, "envelope", about, HELP)?
        .arg(step_option(alloc, step))?
        .arg(flag(alloc, "servers", servers))?
        .arg(flag(alloc, "least", least))
}
