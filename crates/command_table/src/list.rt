//! The command `list`.

ghost use Rattle.std.specs.Prelude.{IfOk, codes};
ghost use Rattle.command_table.specs.Commands as table;

use crate::argument::{human_option, optional};
use crate::command::bare;
use clap::Command;
use std::alloc::{AllocError, Global};

const HELP: &str = "\
Prints:   a line of twenty fields for each NTP packet, then `records R packets P`
Status:   0 done; 2 the capture is refused, after the lines of the records before; 3 out of
          memory; 4 the file or the output failed; 5 the command line is refused
Example:  ntpaudit list recording.pcap
More:     man ntpaudit, which has the fields";

/// The command, its operands and options.
pub(crate) fn declaration<'a>(alloc: Global) -> Result<Command<'a>, AllocError>
    ensures { IfOk result (table.IsDeclared table.list) }
{
    let capture = "The capture, a classic pcap file; standard input if it's left out";
    let about = "Print one line for each NTP packet of a capture";
    bare(alloc, "list", about, HELP)
        .arg(optional(alloc, "CAPTURE", capture))?
        .arg(human_option(alloc, "Say more about a fault"))
}
