//! What a report for a person ends with: the run's inputs, and the program.

ghost use Rattle.std.specs.Prelude.{◌≡◌, ℕ, List, IfOk, map, option_map, string_bytes};
ghost use Rattle.sum_file.specs.Sum.{data_of as sum_data, digest_named};
ghost use Rattle.program.specs.About as spec;
ghost use Rattle.program.specs.About.{about_of, data_of, inputs_of};
ghost use Rattle.program.specs.Invocation.{judged_places, places_of};

use crate::invocation::{JudgedPaths, Paths};
use fault_words::shown;
use report::{Input, input_word};
use std::alloc::{AllocError, Global};
use sum_file::{Sum, SumFault, digest_of, read_sums};

/// The program's version, and the logic in which it is proved, as `--version` tells them.
pub const VERSION: &str = "1.0.0 (logic dac8208d650f15bf)";

/// The same as a line of a report.
const PROGRAM: &str = "ntpaudit 1.0.0 logic dac8208d650f15bf\n";

/// An input of a run, and the operand that names it.
#[derive(Clone, Copy, Debug)]
pub(crate) struct Called<'a> {
    /// Which input it is.
    pub(crate) input: Input,
    /// The operand.
    pub(crate) name: &'a str,
}

/// The inputs of a question without a second one.
pub(crate) fn asked_inputs<'a>(paths: &'a Paths) -> [Called<'a>; 2]
    ensures { map data_of result ≡ inputs_of (places_of paths.now) }
{
    [
        Called {
            input: Input::Claim,
            name: paths.claim.as_str(),
        },
        Called {
            input: Input::Capture,
            name: paths.capture.as_str(),
        },
    ]
}

/// The inputs of a judgement.
pub(crate) fn judged_inputs<'a>(second: Input, paths: &'a JudgedPaths) -> [Called<'a>; 3]
    ensures { map data_of result ≡ inputs_of (judged_places second paths.now) }
{
    let [claim, capture] = asked_inputs(&paths.evidence);
    let name = paths.second.as_str();
    let input = second;
    [claim, capture, Called { input, name }]
}

/// The sums of a text, none if there is no text or it is refused.
fn listed(alloc: Global, sums: &Option<Vec<u8>>) -> Result<Vec<Sum>, AllocError>
    ensures { IfOk result (λ listed. (name : List ℕ) → digest_named name (map sum_data listed.items)
        ≡ spec.sum_in (option_map (λ text. text.items) sums.now) name) }
{
    let Some(text) = sums else {
        return Ok(Vec::new(alloc));
    };
    match read_sums(alloc, text.as_slice()) {
        Ok(listed) => Ok(listed),
        Err(SumFault::Form(_)) => Ok(Vec::new(alloc)),
        Err(SumFault::Memory) => Err(AllocError),
    }
}

/// To which sum an input is held.
fn held_to(alloc: Global, digest: Option<[u8; 32]>) -> Result<String, AllocError>
    ensures { IfOk result (λ text. string_bytes text ≡ spec.held_to digest) }
{
    match digest {
        Some(digest) => {
            let digits = hex::encode(alloc, digest)?;
            format!(in alloc; "SHA-256 {digits}")
        }
        None => String::from_str(alloc, "not held to a sum"),
    }
}

/// The line of an input that is held to its sum among these, if there is one.
fn line(alloc: Global, listed: &[Sum], called: &Called<'_>) -> Result<String, AllocError>
    ensures { IfOk result (λ text. string_bytes text ≡ spec.line_with
        (digest_named called.now.name.now (map sum_data listed.now)) (data_of called.now)) }
{
    let name = shown(alloc, called.name)?;
    let held = held_to(alloc, digest_of(listed, called.name.as_bytes()))?;
    let mut text = String::from_str(alloc, input_word(called.input))?;
    text.push_str(" ")?;
    text.push_str(name.as_str())?;
    text.push_str(": ")?;
    text.push_str(held.as_str())?;
    text.push_str("\n")?;
    Ok(text)
}

/// The lines about these inputs, which are held to the text of a file of sums, if there is one, and
/// about the program.
pub(crate) fn about(
    alloc: Global,
    inputs: &[Called<'_>],
    sums: &Option<Vec<u8>>,
) -> Result<Vec<u8>, AllocError>
    ensures exact { IfOk result (λ lines. lines.items
        ≡ about_of (map data_of inputs.now) (option_map (λ text. text.items) sums.now)) }
{
    let listed = listed(alloc, sums)?;
    let mut lines = String::new(alloc);
    for called in inputs {
        let line = line(alloc, listed.as_slice(), called)?;
        lines.push_str(line.as_str())?;
    }
    lines.push_str(PROGRAM)?;
    Ok(lines.into_bytes())
}
