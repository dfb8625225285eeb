//! The words about a fault.

ghost use Rattle.std.specs.Prelude.{◌≡◌, ◌++◌, IfOk, OnOk, codes, string_bytes};
ghost use Rattle.fault_words.specs.Explanation as spec;
ghost use Rattle.fault_words.specs.Explanation.{AreWords, seen_data};
ghost use Rattle.fault_words.specs.Sentence.{IsQuietKnown, IsSentence, known_data};
ghost use Rattle.fault_words.specs.Subject.{names_data, subject};

use crate::claim_field::{field_name, field_sentence};
use crate::quote::quoted;
use crate::remedy::{Known, WRITE_A_READING, filled};
use crate::seen::Seen;
use crate::sentence::{Sentence, says, sentence_of};
use crate::subject::{Names, input_of};
use claim_file::ClaimFault;
use report::{Input, RunFault};
use std::alloc::{AllocError, Global};

/// The field of the claim that a fault is of, by its code, or 0.
fn field_of(fault: &RunFault, seen: u8) -> u8
    ensures { result ≡ spec.field_of fault.now seen }
{
    match fault {
        RunFault::Claim(ClaimFault::Field(code)) => *code,
        RunFault::Claim(ClaimFault::Address | ClaimFault::Time | ClaimFault::Range) => seen,
        _ => 0,
    }
}

/// The sentence of a fault, of this field of the claim if that isn't 0, of which this was seen.
fn sentence_seen(fault: &RunFault, field: u8, found: &Seen) -> Sentence
    ensures { IsSentence result }
{
    if field == 0 {
        let Sentence { wrong, remedy } = sentence_of(fault);
        let is_capture = matches!(input_of(fault), Some(Input::Capture));
        return says(wrong, found.kind.remedy(is_capture, remedy));
    }
    let Sentence { wrong, remedy } = field_sentence(field);
    if found.is_missing {
        return says("is missing", remedy);
    }
    says(wrong, remedy)
}

/// Adds the name of an input, if there is one.
fn add_subject(text: &mut String, names: &Names<'_>, input: Option<Input>) -> Result<(), AllocError>
    ensures { OnOk result (string_bytes text.new
        ≡ string_bytes text.old ++ subject (names_data names.now) input) }
{
    if let Some(input) = input {
        text.push_str(names.of(input))?;
        text.push_str(": ")?;
    }
    Ok(())
}

/// Adds the name of a field of the claim, if it is one.
fn add_field(text: &mut String, field: u8) -> Result<(), AllocError>
    ensures { OnOk result
        (string_bytes text.new ≡ string_bytes text.old ++ spec.field_words field) }
{
    if field != 0 {
        text.push_str("\"")?;
        text.push_str(field_name(field))?;
        text.push_str("\" ")?;
    }
    Ok(())
}

/// Two lines of these parts.
fn lines_of(
    alloc: Global,
    begin: &str,
    wrong: &str,
    seen: &str,
    remedy: &str,
) -> Result<String, AllocError>
    ensures { IfOk result (λ text. string_bytes text ≡ codes "  " ++ begin.now ++ wrong.now
        ++ seen.now ++ codes "\n  " ++ remedy.now ++ codes "\n") }
{
    let mut text = String::from_str(alloc, "  ")?;
    text.push_str(begin)?;
    text.push_str(wrong)?;
    text.push_str(seen)?;
    text.push_str("\n  ")?;
    text.push_str(remedy)?;
    text.push_str("\n")?;
    Ok(text)
}

/// The words that begin so, with what was seen.
pub(crate) fn words_of(
    alloc: Global,
    begin: &str,
    sentence: Sentence,
    seen: &str,
    known: &Known,
) -> Result<String, AllocError>
    requires sentence { IsSentence sentence }
    requires known { IsQuietKnown (known_data known.now) }
    ensures { IfOk result (λ text. AreWords begin.now seen.now (string_bytes text)) }
{
    let remedy = filled(alloc, sentence.remedy, known)?;
    lines_of(alloc, begin, sentence.wrong, seen, remedy.as_str())
}

/// The words about a fault: a line that says what is wrong with which file, by the names that the
/// inputs have, and what was seen there, and a line that says what to do. Each begins with two
/// blanks. The only error is that memory was refused.
pub fn explain(
    alloc: Global,
    names: &Names<'_>,
    fault: &RunFault,
    found: &Seen,
) -> Result<String, AllocError>
    ensures says { IfOk result (λ text. spec.IsExplanation
        (names_data names.now) fault.now (seen_data found.now) (string_bytes text)) }
{
    let field = field_of(fault, found.field);
    let mut begin = String::new(alloc);
    add_subject(&mut begin, names, input_of(fault))?;
    add_field(&mut begin, field)?;
    let known = Known::of_fault(alloc, names, fault, found.kind.is_pipe())?;
    let sentence = sentence_seen(fault, field, found);
    words_of(alloc, begin.as_str(), sentence, found.seen.as_str(), &known)
}

/// The words about a TIME that is none: two lines, of which the first has its first 40 characters.
pub fn explain_time(alloc: Global, time: &str) -> Result<String, AllocError>
    ensures says { IfOk result (λ text. spec.IsTimeExplanation time.now (string_bytes text)) }
{
    let time = quoted(alloc, time)?;
    let seen = format!(in alloc; "; it is \"{}\"", time.as_str())?;
    let known = Known::of_file(alloc, "")?;
    let sentence = says(
        "has to be a time, in UTC or in Unix seconds",
        WRITE_A_READING,
    );
    words_of(alloc, "TIME ", sentence, seen.as_str(), &known)
}
