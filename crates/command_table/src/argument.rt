//! One operand or option of a command.

ghost use Rattle.std.specs.Prelude.{◌≡◌, false};
ghost use Rattle.command_table.specs.Common.{rule_of};
ghost use Rattle.command_table.specs.Commands as table;

use clap::{Arg, ArgAction};
use std::alloc::{AllocError, Global};

/// An operand that has to be there, with these words about it.
pub(crate) fn required<'a>(alloc: Global, name: &'a str, help: &'a str) -> Arg<'a>
    ensures rule { rule_of result ≡ table.required name.now }
    ensures local { result.global ≡ false }
{
    Arg::new(alloc, name).help(help).required(true)
}

/// An operand that may be left out, with these words about it.
pub(crate) fn optional<'a>(alloc: Global, name: &'a str, help: &'a str) -> Arg<'a>
    ensures rule { rule_of result ≡ table.optional name.now }
    ensures local { result.global ≡ false }
{
    Arg::new(alloc, name).help(help)
}

/// An option with a value, which help calls so, with these words about it.
pub(crate) fn valued<'a>(alloc: Global, name: &'a str, value: &'a str, help: &'a str) -> Arg<'a>
    ensures rule { rule_of result ≡ table.valued name.now }
    ensures local { result.global ≡ false }
{
    Arg::new(alloc, name)
        .long(name)
        .value_name(value)
        .help(help)
}

/// An option without a value, with these words about it.
pub(crate) fn flag<'a>(alloc: Global, name: &'a str, help: &'a str) -> Arg<'a>
    ensures rule { rule_of result ≡ table.flag name.now }
    ensures local { result.global ≡ false }
{
    Arg::new(alloc, name)
        .long(name)
        .help(help)
        .action(ArgAction::SetTrue)
}

/// The option `--human`, with these words about it.
pub(crate) fn human_option<'a>(alloc: Global, help: &'a str) -> Arg<'a>
    ensures rule { rule_of result ≡ table.human }
    ensures local { result.global ≡ false }
{
    flag(alloc, "human", help).short('H')
}

/// The option `--step`, with these words about it.
pub(crate) fn step_option<'a>(alloc: Global, help: &'a str) -> Arg<'a>
    ensures rule { rule_of result ≡ table.step }
    ensures local { result.global ≡ false }
{
    valued(alloc, "step", "N", help)
        .value_parser(clap::value_parser!(u32).range(1..=86_400))
        .default_value("64")
}
