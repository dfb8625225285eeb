//! What commands on a claim and a capture share.

ghost use Rattle.std.specs.Prelude.{IfOk};
ghost use Rattle.command_line.specs.Invocation.{AreJudgedNamed, AreNamed, AreNamedBy, IsAsking, found_rows};

use crate::command::argument::{operand, style, text_of};
use audit::Request;
use clap::ArgMatches;
use program::{Invocation, JudgedPaths, Paths};
use std::alloc::{AllocError, Global};

/// The claim and the capture, by the names of their operands, the file of sums and the output, and
/// for whom the answer is written.
pub(crate) fn paths_by(
    alloc: Global,
    words: &ArgMatches,
    claim: &str,
    capture: &str,
) -> Result<Paths, AllocError>
    ensures { IfOk result (AreNamedBy claim.now capture.now (found_rows words.now)) }
{
    Ok(Paths {
        style: style(words),
        claim: String::from_str(alloc, operand(words, claim))?,
        capture: String::from_str(alloc, operand(words, capture))?,
        sums: text_of(alloc, words, "sums")?,
        output: text_of(alloc, words, "output")?,
    })
}

/// The same of the operands CLAIM and CAPTURE.
pub(crate) fn paths(alloc: Global, words: &ArgMatches) -> Result<Paths, AllocError>
    ensures { IfOk result (AreNamed (found_rows words.now)) }
{
    paths_by(alloc, words, "CLAIM", "CAPTURE")
}

/// The same, with the second input that the operand or option of this name names.
pub(crate) fn judged_paths(
    alloc: Global,
    words: &ArgMatches,
    name: &str,
) -> Result<JudgedPaths, AllocError>
    ensures { IfOk result (AreJudgedNamed name.now (found_rows words.now)) }
{
    Ok(JudgedPaths {
        evidence: paths(alloc, words)?,
        second: String::from_str(alloc, operand(words, name))?,
    })
}

/// Asks a question of the files that are named.
pub(crate) fn ask(
    alloc: Global,
    request: Request,
    words: &ArgMatches,
) -> Result<Invocation, AllocError>
    ensures { IfOk result (IsAsking request (found_rows words.now)) }
{
    Ok(Invocation::Ask(request, paths(alloc, words)?))
}
