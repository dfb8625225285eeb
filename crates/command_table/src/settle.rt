//! The command `settle`.

ghost use Rattle.std.specs.Prelude.{IfOk};
ghost use Rattle.command_table.specs.Commands as table;

use crate::evidence::{evidence_command, output_option, sums_option};
use clap::Command;
use std::alloc::{AllocError, Global};

const HELP: &str = "\
Prints:   one of five answers. A certificate, which `check` accepts: the claim is shown. A
          refutation, which `refute --drift` accepts. Lines `conflict SERVER REQUEST SERVER REPLY`,
          and then `nothing fits`: in this capture one of the premises fails. `no evidence
          groups K of G false_max F`: no more groups of servers have a sample than may be wrong. Or
          `open P Q hull LO HI`: neither is found, and no certificate of pieces is accepted. With
          --human what is found is told in short lines: milliseconds, times as
          2026-11-22T06:46:09Z, addresses. With -o FILE all but these lines goes to FILE, at status
          0 and 1
Status:   0 shown; 1 any other answer; 2 an input is refused, or over 100000 pieces are needed
          and no refutation is found; 3 out of memory; 4 a file or the output failed; 5 the command
          line is refused
Example:  ntpaudit settle claim.json recording.pcap --human -o certificate.json
More:     man ntpaudit, which says what each answer means";

/// The command, its operands and options.
pub(crate) fn declaration<'a>(alloc: Global) -> Result<Command<'a>, AllocError>
    ensures { IfOk result (table.IsDeclared table.settle) }
{
    let about = "Settle a claim by a capture: show it, or refute it";
    evidence_command(alloc, "settle", about, HELP)?
        .arg(output_option(alloc))?
        .arg(sums_option(alloc))
}
