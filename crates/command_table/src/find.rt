//! The command `find`.

ghost use Rattle.std.specs.Prelude.{IfOk};
ghost use Rattle.command_table.specs.Commands as table;

use crate::argument::{flag, step_option};
use crate::evidence::{evidence_command, output_option};
use clap::Command;
use std::alloc::{AllocError, Global};

const HELP: &str = "\
Prints:   a certificate, or `nothing piece K` and the hull of the first piece that shows too little.
          `check` judges a certificate. With --refutation: a refutation, or `nothing refutation`.
          With --human what is found is told in short lines, with milliseconds. With -o FILE all
          but these lines goes to FILE, at status 0 and 1
Status:   0 something is found; 1 nothing; 2 an input is refused, or there are over 100000 pieces;
          3 out of memory; 4 a file or the output failed; 5 the command line is refused
Example:  ntpaudit find claim.json recording.pcap --step 8 -o certificate.json
More:     man ntpaudit";

/// The command, its operands and options.
pub(crate) fn declaration<'a>(alloc: Global) -> Result<Command<'a>, AllocError>
    ensures { IfOk result (table.IsDeclared table.find) }
{
    let step = "Seconds of each piece, 1 to 86400; ignored beside --refutation";
    let refutation = "Find a refutation of the claim instead of a certificate";
    let about = "Find a certificate for a claim in a capture, or a refutation";
    evidence_command(alloc, "find", about, HELP)?
        .arg(step_option(alloc, step))?
        .arg(flag(alloc, "refutation", refutation))?
        .arg(output_option(alloc))
}
