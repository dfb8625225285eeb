//! What commands on a claim and a capture share.

ghost use Rattle.std.specs.Prelude.{◌≡◌, IfOk, [], false};
ghost use Rattle.clap.specs.Words.{rule_of};
ghost use Rattle.command_table.specs.Commands as table;

use crate::argument::{human_option, required, valued};
use crate::command::bare;
use clap::{Arg, Command};
use std::alloc::{AllocError, Global};

/// A command that reads a claim and a capture, with these words about it.
pub(crate) fn evidence_command<'a>(
    alloc: Global,
    name: &'a str,
    about: &'a str,
    help: &'a str,
) -> Result<Command<'a>, AllocError>
    ensures { IfOk result (table.IsDeclared (table.on_claim name.now [])) }
{
    let human = "Milliseconds, times of the day, and faults in words";
    bare(alloc, name, about, help)
        .arg(required(alloc, "CLAIM", "The claim, a JSON file"))?
        .arg(required(alloc, "CAPTURE", "The capture, a classic pcap file"))?
        .arg(human_option(alloc, human))
}

/// The option `--sums`.
pub(crate) fn sums_option<'a>(alloc: Global) -> Arg<'a>
    ensures rule { rule_of result ≡ table.sums }
    ensures local { result.global ≡ false }
{
    let help = "Hold each file to its line in SUMS, a file as sha256sum writes it";
    valued(alloc, "sums", "SUMS", help)
}

/// The option `--output`.
pub(crate) fn output_option<'a>(alloc: Global) -> Arg<'a>
    ensures rule { rule_of result ≡ table.output }
    ensures local { result.global ≡ false }
{
    let help = "Write what a program reads to FILE, whole or not at all";
    valued(alloc, "output", "FILE", help).short('o')
}
