//! The command `list`.

ghost use Rattle.std.specs.Prelude.{IfOk, codes};
ghost use Rattle.command_line.specs.Invocation.{IsCalled, found_rows};

use crate::command::argument::{style, text_of};
use clap::ArgMatches;
use program::{Invocation, Listed};
use std::alloc::{AllocError, Global};

/// What its words call for.
pub(crate) fn invocation(alloc: Global, words: &ArgMatches) -> Result<Invocation, AllocError>
    ensures { IfOk result (IsCalled (codes "list") (found_rows words.now)) }
{
    Ok(Invocation::List(Listed {
        style: style(words),
        path: text_of(alloc, words, "CAPTURE")?,
    }))
}
