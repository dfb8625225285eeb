//! The command `at`.

ghost use Rattle.std.specs.Prelude.{◌≡◌, IfOk, IsSome, None, codes, false, is_some, true};
ghost use Rattle.command_line.specs.Common.{first_of};
ghost use Rattle.command_line.specs.Invocation.{IsCalled, IsFlag, IsShownTime, found_rows, ticks_given, time_given};

use crate::command::argument::{is_given, operand, value};
use crate::command::evidence::{ask, judged_paths};
use audit::{At, AtByCovers, AtReading, Request};
use claim_file::read_time;
use clap::ArgMatches;
use program::{Invocation, Judgement};
use reading_time::read_reading;
use std::alloc::{AllocError, Global};

/// The moment that it is asked about, if its TIME is written as a claim's times are.
fn time_of(words: &ArgMatches) -> Option<u32>
    ensures { result ≡ time_given (found_rows words.now) }
{
    read_time(operand(words, "TIME"))
}

/// The ticks of a reading, if the operand of this name is written as one.
pub(crate) fn ticks_of(words: &ArgMatches, name: &str) -> Option<AtReading>
    ensures { result ≡ ticks_given name.now (found_rows words.now) }
{
    let reading = read_reading(operand(words, name).as_bytes())?;
    Some(AtReading {
        begin: reading.begin,
        end: reading.end,
    })
}

/// The time that is refused, the operand of this name, if a person is told of it.
pub(crate) fn shown_time(
    alloc: Global,
    words: &ArgMatches,
    name: &str,
) -> Result<Option<String>, AllocError>
    ensures { IfOk result (IsShownTime name.now (found_rows words.now)) }
{
    if is_given(words, "human") {
        Ok(Some(String::from_str(alloc, operand(words, name))?))
    } else {
        Ok(None)
    }
}

/// Whether an operand or option is there.
fn is_there(words: &ArgMatches, name: &str) -> bool
    ensures { result ≡ is_some (first_of name.now (found_rows words.now)) }
{
    value(words, name).is_some()
}

/// What the words with a TIME call for, by covers.
fn asked_by_covers(alloc: Global, words: &ArgMatches) -> Result<Invocation, AllocError>
    requires alone { first_of (codes "times") (found_rows words.now) ≡ None }
    requires given { IsFlag (codes "covers") (found_rows words.now) true }
    ensures { IfOk result (IsCalled (codes "at") (found_rows words.now)) }
{
    match ticks_of(words, "TIME") {
        Some(reading) => ask(alloc, Request::ByCovers(AtByCovers { reading }), words),
        None => Ok(Invocation::RefuseTime(shown_time(alloc, words, "TIME")?)),
    }
}

/// What the words with a TIME that isn't written as a claim's times call for.
fn asked_over(alloc: Global, words: &ArgMatches) -> Result<Invocation, AllocError>
    requires alone { first_of (codes "times") (found_rows words.now) ≡ None }
    requires without_covers { IsFlag (codes "covers") (found_rows words.now) false }
    requires no_moment { time_given (found_rows words.now) ≡ None }
    ensures { IfOk result (IsCalled (codes "at") (found_rows words.now)) }
{
    match ticks_of(words, "TIME") {
        Some(reading) => ask(alloc, Request::Reading(reading), words),
        None => Ok(Invocation::RefuseTime(shown_time(alloc, words, "TIME")?)),
    }
}

/// What the words with a TIME call for: it is read before anything else is done.
fn asked_at(alloc: Global, words: &ArgMatches) -> Result<Invocation, AllocError>
    requires { first_of (codes "times") (found_rows words.now) ≡ None }
    ensures { IfOk result (IsCalled (codes "at") (found_rows words.now)) }
{
    if is_given(words, "covers") {
        return asked_by_covers(alloc, words);
    }
    match time_of(words) {
        Some(unix_second) => ask(alloc, Request::At(At { unix_second }), words),
        None => asked_over(alloc, words),
    }
}

/// What the words with a file of readings call for.
fn asked_of_file(alloc: Global, words: &ArgMatches) -> Result<Invocation, AllocError>
    requires alone { first_of (codes "TIME") (found_rows words.now) ≡ None }
    requires file { IsSome (first_of (codes "times") (found_rows words.now)) }
    ensures { IfOk result (IsCalled (codes "at") (found_rows words.now)) }
{
    let covers = is_given(words, "covers");
    let paths = judged_paths(alloc, words, "times")?;
    Ok(Invocation::Judge(Judgement::Readings { covers }, paths))
}

/// What its words call for.
#[tactic(auto, using(crate::proofs::Moments::moments))]
pub(crate) fn invocation(alloc: Global, words: &ArgMatches) -> Result<Invocation, AllocError>
    ensures { IfOk result (IsCalled (codes "at") (found_rows words.now)) }
{
    match (is_there(words, "TIME"), is_there(words, "times")) {
        (true, false) => asked_at(alloc, words),
        (false, true) => asked_of_file(alloc, words),
        (true, true) | (false, false) => {
            Invocation::refusal(alloc, "error: at takes a TIME, or --times FILE\n")
        }
    }
}
