//! The command `refute`.

ghost use Rattle.std.specs.Prelude.{IfOk};
ghost use Rattle.command_table.specs.Commands as table;

use crate::argument::{flag, required};
use crate::evidence::{evidence_command, sums_option};
use clap::Command;
use std::alloc::{AllocError, Global};

const HELP: &str = "\
Prints:   `refuted yes` or `refuted no`. With --human also what the refutation says: its error in
          milliseconds, when, how far beyond the bound, and which servers would be wrong
Status:   0 yes; 1 no; 2 an input is refused; 3 out of memory; 4 a file or the output failed; 5 the
          command line is refused
Example:  ntpaudit refute claim.json recording.pcap refutation.json
More:     man ntpaudit, which says when a refutation stands";

/// The command, its operands and options.
pub(crate) fn declaration<'a>(alloc: Global) -> Result<Command<'a>, AllocError>
    ensures { IfOk result (table.IsDeclared table.refute) }
{
    let drift = "Let the clock's error drift as the claim grants, not stay the same";
    let about = "Check a refutation of a claim against a capture";
    evidence_command(alloc, "refute", about, HELP)?
        .arg(required(alloc, "REFUTATION", "The refutation, a JSON file"))?
        .arg(flag(alloc, "drift", drift))?
        .arg(sums_option(alloc))
}
