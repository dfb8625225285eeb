//! The command `samples`.

ghost use Rattle.std.specs.Prelude.{IfOk};
ghost use Rattle.command_table.specs.Commands as table;

use crate::evidence::evidence_command;
use clap::Command;
use std::alloc::{AllocError, Global};

const HELP: &str = "\
Prints:   a line for each exchange, `K SERVER REQUEST REPLY offset LO HI delay LO HI low L high H`,
          with the numbers of its two records, and ticks of 2^-32 s; then a line of counts.
          With --human milliseconds, in columns under a heading
Status:   0 done; 2 an input is refused; 3 out of memory; 4 a file or the output failed; 5 the
          command line is refused
Example:  ntpaudit samples claim.json recording.pcap
More:     man ntpaudit, which has the fields and the counts";

/// The command, its operands and options.
pub(crate) fn declaration<'a>(alloc: Global) -> Result<Command<'a>, AllocError>
    ensures { IfOk result (table.IsDeclared table.samples) }
{
    let about = "Print what each exchange of a capture says about the clock";
    evidence_command(alloc, "samples", about, HELP)
}
