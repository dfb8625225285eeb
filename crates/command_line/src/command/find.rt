//! The command `find`.

ghost use Rattle.std.specs.Prelude.{IfOk, codes};
ghost use Rattle.command_line.specs.Invocation.{IsCalled, found_rows};

use crate::command::argument::{is_given, step_of};
use crate::command::evidence::ask;
use audit::{Find, Request};
use clap::ArgMatches;
use program::Invocation;
use std::alloc::{AllocError, Global};

/// What its words call for.
pub(crate) fn invocation(alloc: Global, words: &ArgMatches) -> Result<Invocation, AllocError>
    ensures { IfOk result (IsCalled (codes "find") (found_rows words.now)) }
{
    let Some(step) = step_of(words) else {
        return Invocation::refusal(alloc, "no step\n");
    };
    let request = if is_given(words, "refutation") {
        Request::FindRefutation
    } else {
        Request::Find(Find { step })
    };
    ask(alloc, request, words)
}
