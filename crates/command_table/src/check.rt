//! The command `check`.

ghost use Rattle.std.specs.Prelude.{IfOk};
ghost use Rattle.command_table.specs.Commands as table;

use crate::argument::required;
use crate::evidence::{evidence_command, sums_option};
use clap::Command;
use std::alloc::{AllocError, Global};

const HELP: &str = "\
Prints:   a report, whose last line is `verdict yes` or `verdict no piece K WHY`. With --human
          milliseconds, and times as 2026-11-22T06:46:09Z
Status:   0 yes; 1 no; 2 an input is refused; 3 out of memory; 4 a file or the output failed; 5 the
          command line is refused
Example:  ntpaudit check claim.json recording.pcap certificate.json
More:     man ntpaudit, which says what a yes means";

/// The command, its operands and options.
pub(crate) fn declaration<'a>(alloc: Global) -> Result<Command<'a>, AllocError>
    ensures { IfOk result (table.IsDeclared table.check) }
{
    let about = "Check a certificate for a claim against a capture";
    evidence_command(alloc, "check", about, HELP)?
        .arg(required(alloc, "CERTIFICATE", "The certificate, a JSON file"))?
        .arg(sums_option(alloc))
}
