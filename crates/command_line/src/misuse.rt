//! Paths that can't go together.

ghost use Rattle.std.specs.Prelude.{◌≡◌, IfOk, false, map, option_map, string_bytes};
ghost use Rattle.std.specs.Option.{option_map_or};
ghost use Rattle.command_line.specs.Words as spec;
ghost use Rattle.command_line.specs.Words.{IsReadOnce};

use program::{Invocation, Paths, STDIN, path_or_none};
use std::alloc::{AllocError, Global};

const TWICE: &str =
    "error: standard input, -, can be one input alone: give each other by its file\n";

/// Whether standard input would be two of these inputs.
fn is_twice(operands: &[&str]) -> bool
    ensures { result ≡ spec.is_twice (map (λ operand. operand.now) operands.now) }
{
    1 < operands.iter().filter(|operand| **operand == STDIN).count()
}

/// Whether the output is no file.
fn names_no_file(output: &Option<String>) -> bool
    ensures { result ≡ option_map_or (λ path. spec.is_no_file (string_bytes path)) output.now
        false }
{
    match output {
        Some(path) => path.as_str() == STDIN || path.as_str() == "",
        None => false,
    }
}

/// Why these paths can't go together, beside a second input of this path.
fn misuse_of(paths: &Paths, second: &str) -> Option<&'static str>
    ensures { option_map (λ text. text.now) result ≡ spec.misuse_of paths.now second.now }
{
    let (claim, capture) = (paths.claim.as_str(), paths.capture.as_str());
    if is_twice(&[claim, capture, second, path_or_none(&paths.sums)]) {
        Some(TWICE)
    } else if names_no_file(&paths.output) {
        Some("error: -o takes a file's path; standard output needs no -o\n")
    } else {
        None
    }
}

/// Why the claims and captures of two clocks can't go together.
fn misuse_of_two(first: &Paths, second: &Paths) -> Option<&'static str>
    ensures { option_map (λ text. text.now) result ≡ spec.misuse_of_two first.now second.now }
{
    let (claim, capture) = (first.claim.as_str(), first.capture.as_str());
    if is_twice(&[
        claim,
        capture,
        second.claim.as_str(),
        second.capture.as_str(),
    ]) {
        Some(TWICE)
    } else {
        None
    }
}

/// Why the paths of what is called for can't go together.
fn misuse_in(invocation: &Invocation) -> Option<&'static str>
    ensures { option_map (λ text. text.now) result ≡ spec.misuse_in invocation.now }
{
    match invocation {
        Invocation::Ask(_, paths) => misuse_of(paths, ""),
        Invocation::Judge(_, paths) => misuse_of(&paths.evidence, paths.second.as_str()),
        Invocation::Order(first, second) => misuse_of_two(&first.paths, &second.paths),
        _ => None,
    }
}

/// What a command line calls for, refused if its paths can't go together.
pub(crate) fn read_once(alloc: Global, invocation: Invocation) -> Result<Invocation, AllocError>
    ensures { IfOk result (IsReadOnce invocation) }
{
    match misuse_in(&invocation) {
        Some(text) => Invocation::refusal(alloc, text),
        None => Ok(invocation),
    }
}
