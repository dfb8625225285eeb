//! The command `order`.

ghost use Rattle.std.specs.Prelude.{IfOk};
ghost use Rattle.command_table.specs.Commands as table;

use crate::argument::required;
use crate::evidence::evidence_command;
use clap::Command;
use std::alloc::{AllocError, Global};

const HELP: &str = "\
Prints:   `first before second by at least N ns`, `second before first by at least N ns`, or `open:
          first may be N ns earlier or M ns later`; `open` if the clocks say nothing, and `nothing
          fits` if they contradict themselves. The first is the clock of CLAIM and CAPTURE when it
          showed TIME, the second that of the other three; a TIME is written as for `at`, and stands
          for as long as its last digit does. Two readings of one clock, given by the same words,
          have the order in which it showed them. With --human milliseconds, and before that line
          the earliest and the latest true time of each
Status:   0 one was before the other; 1 it isn't known; 2 an input is refused; 3 out of memory; 4 a
          file or the output failed; 5 the command line is refused
Example:  ntpaudit order a.json a.pcap 1795329969.25 b.json b.pcap 1795329969.5
More:     man ntpaudit";

/// The command, its operands and options.
pub(crate) fn declaration<'a>(alloc: Global) -> Result<Command<'a>, AllocError>
    ensures { IfOk result (table.IsDeclared table.order) }
{
    let about = "Say which was first, a reading of one clock or a reading of another";
    evidence_command(alloc, "order", about, HELP)?
        .arg(required(alloc, "TIME", "What that clock showed first"))?
        .arg(required(alloc, "OTHER_CLAIM", "The claim of the other clock"))?
        .arg(required(alloc, "OTHER_CAPTURE", "Its capture"))?
        .arg(required(alloc, "OTHER_TIME", "What it showed second"))
}
