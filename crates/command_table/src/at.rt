//! The command `at`.

ghost use Rattle.std.specs.Prelude.{IfOk};
ghost use Rattle.command_table.specs.Commands as table;

use crate::argument::{flag, optional, valued};
use crate::evidence::{evidence_command, sums_option};
use clap::Command;
use std::alloc::{AllocError, Global};

const HELP: &str = "\
Prints:   a line for each server that has a sample, `SERVER LO HI`: the clock's error, from LO to HI
          ticks of 2^-32 s, if this server is right; then `hull LO HI`, `hull unbounded` or
          `hull empty`: the clock's error if at most false_max groups of servers are wrong.
          TIME may also have up to nine digits of a fraction, as 2026-11-22T06:46:09.5Z, or be Unix
          seconds, as 1795329969.5: it stands for as long as its last digit does, the lines are of
          that time, and `true EARLIEST LATEST` ends them, in ticks since 1970: true time lay
          between the two. With --times for each line, such a TIME, `reading TIME hull LO HI true
          EARLIEST LATEST`. With --covers the hull is by covers: narrower where a server is caught
          elsewhere; of a TIME, which is such a one, the lines `hull` and `true` are all.
          With --human milliseconds, in columns under a heading
Status:   0 done; 2 an input is refused; 3 out of memory; 4 a file or the output failed; 5 the
          command line is refused
Example:  ntpaudit at claim.json recording.pcap 2026-11-22T06:46:09Z
More:     man ntpaudit";

/// The command, its operands and options.
pub(crate) fn declaration<'a>(alloc: Global) -> Result<Command<'a>, AllocError>
    ensures { IfOk result (table.IsDeclared table.at) }
{
    let time = "The moment, as 2026-11-22T06:46:09Z; it may lie outside the claim's span";
    let times = "Tell of each line of FILE, or of standard input, -, when the clock showed it";
    let covers = "Say how far off the clock can have been, by covers: narrower, if slower";
    let about = "Print what a capture says about the clock at a moment, or at many";
    evidence_command(alloc, "at", about, HELP)?
        .arg(optional(alloc, "TIME", time))?
        .arg(valued(alloc, "times", "FILE", times))?
        .arg(flag(alloc, "covers", covers))?
        .arg(sums_option(alloc))
}
