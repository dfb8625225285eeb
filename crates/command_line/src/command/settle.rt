//! The command `settle`.

ghost use Rattle.std.specs.Prelude.{IfOk, codes};
ghost use Rattle.command_line.specs.Invocation.{IsCalled, found_rows};

use crate::command::evidence::ask;
use audit::Request;
use clap::ArgMatches;
use program::Invocation;
use std::alloc::{AllocError, Global};

/// What its words call for.
pub(crate) fn invocation(alloc: Global, words: &ArgMatches) -> Result<Invocation, AllocError>
    ensures { IfOk result (IsCalled (codes "settle") (found_rows words.now)) }
{
    ask(alloc, Request::Settle, words)
}
