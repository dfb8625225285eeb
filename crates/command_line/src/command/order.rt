//! The command `order`.

ghost use Rattle.std.specs.Prelude.{◌≡◌, IfOk, codes};
ghost use Rattle.command_line.specs.Invocation as spec;
ghost use Rattle.command_line.specs.Invocation.{AreReadings, IsCalled, found_rows};

use crate::command::argument::operand;
use crate::command::at::{shown_time, ticks_of};
use crate::command::evidence::{ask, paths, paths_by};
use audit::{AtReading, OrderWithin, Request};
use clap::ArgMatches;
use program::{Invocation, Shown};
use std::alloc::{AllocError, Global};

/// Whether two operands have the same text.
fn are_same(words: &ArgMatches, name: &str, other: &str) -> bool
    ensures { result ≡ spec.are_same name.now other.now (found_rows words.now) }
{
    operand(words, name) == operand(words, other)
}

/// Whether both readings are of one clock: its claim and its capture are given twice.
fn is_one_clock(words: &ArgMatches) -> bool
    ensures { result ≡ spec.is_one_clock (found_rows words.now) }
{
    are_same(words, "CLAIM", "OTHER_CLAIM") && are_same(words, "CAPTURE", "OTHER_CAPTURE")
}

/// What the words with these readings call for.
fn asked_of(
    alloc: Global,
    words: &ArgMatches,
    first: AtReading,
    second: AtReading,
) -> Result<Invocation, AllocError>
    requires { AreReadings (found_rows words.now) first second }
    ensures { IfOk result (IsCalled (codes "order") (found_rows words.now)) }
{
    if is_one_clock(words) {
        let request = Request::OrderWithin(OrderWithin { first, second });
        return ask(alloc, request, words);
    }
    let first = Shown {
        reading: first,
        paths: paths(alloc, words)?,
    };
    let second = Shown {
        reading: second,
        paths: paths_by(alloc, words, "OTHER_CLAIM", "OTHER_CAPTURE")?,
    };
    Ok(Invocation::Order(first, second))
}

/// What its words call for. Both times are read before anything else is done.
pub(crate) fn invocation(alloc: Global, words: &ArgMatches) -> Result<Invocation, AllocError>
    ensures { IfOk result (IsCalled (codes "order") (found_rows words.now)) }
{
    match (ticks_of(words, "TIME"), ticks_of(words, "OTHER_TIME")) {
        (Some(first), Some(second)) => asked_of(alloc, words, first, second),
        (Some(_), None) => Ok(Invocation::RefuseTime(shown_time(alloc, words, "OTHER_TIME")?)),
        (None, _) => Ok(Invocation::RefuseTime(shown_time(alloc, words, "TIME")?)),
    }
}
