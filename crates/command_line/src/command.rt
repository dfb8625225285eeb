//! What the words of each command call for, each in a file of its own.

ghost use Rattle.std.specs.Prelude.{IfOk};
ghost use Rattle.clap.specs.Words.{subcommand_rows_of};
ghost use Rattle.command_line.specs.Invocation.{IsCalled, IsCalledBy, found_rows};

mod argument;
mod at;
mod check;
mod envelope;
mod evidence;
mod find;
mod list;
mod order;
mod refute;
mod samples;
mod settle;

use clap::ArgMatches;
use program::Invocation;
use std::alloc::{AllocError, Global};

/// What the words of this command call for.
fn called(alloc: Global, name: &str, words: &ArgMatches) -> Result<Invocation, AllocError>
    ensures { IfOk result (IsCalled name.now (found_rows words.now)) }
{
    match name {
        "list" => list::invocation(alloc, words),
        "samples" => samples::invocation(alloc, words),
        "at" => at::invocation(alloc, words),
        "order" => order::invocation(alloc, words),
        "settle" => settle::invocation(alloc, words),
        "check" => check::invocation(alloc, words),
        "find" => find::invocation(alloc, words),
        "refute" => refute::invocation(alloc, words),
        "envelope" => envelope::invocation(alloc, words),
        _ => Invocation::refusal(alloc, "no command\n"),
    }
}

/// What the words of a command line call for that clap has taken apart.
pub(crate) fn invocation_of(alloc: Global, matches: &ArgMatches) -> Result<Invocation, AllocError>
    ensures called { IfOk result (IsCalledBy (subcommand_rows_of matches.now)) }
{
    match matches.subcommand() {
        Some((name, words)) => called(alloc, name, words),
        None => Invocation::refusal(alloc, "no command\n"),
    }
}
