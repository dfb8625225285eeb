//! What is read of one operand or option.

ghost use Rattle.std.specs.Prelude.{◌≡◌, IfNone, IfOk, IfSome, Some, codes, option_map, string_bytes};
ghost use Rattle.command_line.specs.Common.{first_of, is_human};
ghost use Rattle.command_line.specs.Invocation as spec;
ghost use Rattle.command_line.specs.Invocation.{HasNoStep, IsFlag, found_rows, step_given};

use audit::{Step, Style};
use clap::ArgMatches;
use std::alloc::{AllocError, Global};

/// Whether an option without a value was given.
pub(crate) fn is_given(words: &ArgMatches, name: &str) -> bool
    ensures { IsFlag name.now (found_rows words.now) result }
{
    words.get_flag(name)
}

/// The first value of an operand or option, as text.
pub(crate) fn value<'a>(words: &ArgMatches<'a>, name: &str) -> Option<&'a str>
    ensures { option_map (λ text. text.now) result ≡ first_of name.now (found_rows words.now) }
{
    words.get_str(name)
}

/// The text of an operand, empty if it was left out.
pub(crate) fn operand<'a>(words: &ArgMatches<'a>, name: &str) -> &'a str
    ensures { result.now ≡ spec.operand name.now (found_rows words.now) }
{
    match value(words, name) {
        Some(text) => text,
        None => "",
    }
}

/// The text of an operand or option that may be left out.
pub(crate) fn text_of(
    alloc: Global,
    words: &ArgMatches,
    name: &str,
) -> Result<Option<String>, AllocError>
    ensures { IfOk result (λ text. option_map string_bytes text
        ≡ first_of name.now (found_rows words.now)) }
{
    match value(words, name) {
        Some(text) => Ok(Some(String::from_str(alloc, text)?)),
        None => Ok(None),
    }
}

/// For whom the answer is written.
pub(crate) fn style(words: &ArgMatches) -> Style
    ensures human { IsFlag (codes "human") (found_rows words.now) (is_human result) }
    ensures is { result ≡ spec.style_of (is_human result) }
{
    if is_given(words, "human") {
        Style::Human
    } else {
        Style::Plain
    }
}

/// The length of a piece that is asked for.
pub(crate) fn step_of(words: &ArgMatches) -> Option<Step>
    ensures some { IfSome result (λ step.
        step_given (found_rows words.now) ≡ Some step.seconds) }
    ensures none { IfNone result (HasNoStep (found_rows words.now)) }
{
    let seconds = words.get_one::<u32>("step")?;
    Step::new(seconds)
}
