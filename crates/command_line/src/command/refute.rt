//! The command `refute`.

ghost use Rattle.std.specs.Prelude.{IfOk, codes};
ghost use Rattle.command_line.specs.Invocation.{IsCalled, found_rows};

use crate::command::argument::is_given;
use crate::command::evidence::judged_paths;
use clap::ArgMatches;
use program::{Invocation, Judgement};
use std::alloc::{AllocError, Global};

/// What its words call for.
pub(crate) fn invocation(alloc: Global, words: &ArgMatches) -> Result<Invocation, AllocError>
    ensures { IfOk result (IsCalled (codes "refute") (found_rows words.now)) }
{
    let refute = Judgement::Refute {
        drift: is_given(words, "drift"),
    };
    let paths = judged_paths(alloc, words, "REFUTATION")?;
    Ok(Invocation::Judge(refute, paths))
}
