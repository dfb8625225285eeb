//! What `settle`, `find` and `refute` say to a person.

ghost use Rattle.std.specs.Prelude.{◌≡◌, ◌≤◌, ◌++◌, All, IfOk, length, map};
ghost use Rattle.audit_text.specs.Common.{covers_data, refutation_data, data_of, max_servers, IsLawful};
ghost use Rattle.audit_text.specs.Answer as spec;
ghost use Rattle.audit_text.specs.Answer.{answer_line, covers_line, most_line};

use crate::bound_lines::{add_carried, add_claimed, add_wider};
use crate::cover_lines::covers_text;
use crate::refutation_lines::add_refutation;
use crate::settlement::{evidence_text, open_text};
use crate::silent_lines::add_silents;
use certificate::Refutation;
use claim_file::Claim;
use cover_certificate::CoverCertificate;
use intersection::kinds::Hull;
use line_writer::{Field, Style, add_line};
use pairing::ToExchange;
use std::alloc::{AllocError, Global};

/// The line of what the answer is.
fn answer_text(alloc: Global, answer: &str) -> Result<Vec<u8>, AllocError>
    ensures { IfOk result (λ text. text.items ≡ answer_line answer.now) }
{
    let mut text = Vec::new(alloc);
    add_line(&mut text, Style::Human, &[Field::Word(answer)])?;
    Ok(text)
}

/// The text of `settle` for a person if a certificate shows the claim: how many pieces it has, and
/// the least bound with which there is one, in nanoseconds.
#[tactic(auto, unfolding(crate::specs::Answer::shown_answer))]
pub fn shown_answer(
    alloc: Global,
    claim: &Claim,
    pieces: u64,
    least_ns: Option<u64>,
) -> Result<Vec<u8>, AllocError>
    ensures { IfOk result (λ text.
        text.items ≡ spec.shown_answer (data_of claim.now) pieces least_ns) }
{
    let mut text = answer_text(alloc, "shown")?;
    add_claimed(&mut text, claim.bound_ns)?;
    add_line(&mut text, Style::Human, &[Field::Named("pieces", pieces)])?;
    add_carried(&mut text, least_ns)?;
    Ok(text)
}

/// The text of `settle` for a person if a certificate by covers shows the claim, and no other does:
/// which exchanges catch wrong servers, and each case.
#[tactic(auto, unfolding(crate::specs::Answer::covers_answer))]
pub fn covers_answer<X: ToExchange>(
    alloc: Global,
    claim: &Claim,
    exchanges: &[X],
    certificate: &CoverCertificate,
) -> Result<Vec<u8>, AllocError>
    requires exchanges { All (IsLawful (length claim.now.servers.items))
        (map X.shown exchanges.now) }
    ensures { IfOk result (λ text. text.items ≡ spec.covers_answer (data_of claim.now)
        (map X.shown exchanges.now) (covers_data certificate.now)) }
{
    let mut text = answer_text(alloc, "shown by covers")?;
    add_claimed(&mut text, claim.bound_ns)?;
    let covers = covers_text(alloc, Style::Human, claim, exchanges, certificate)?;
    text.extend_from_slice(covers.as_slice())?;
    Ok(text)
}

/// The text of `find` for a person if a certificate is found with pieces of so many seconds.
#[tactic(auto, unfolding(crate::specs::Answer::found_answer))]
pub fn found_answer(
    alloc: Global,
    claim: &Claim,
    step: u32,
    pieces: u64,
) -> Result<Vec<u8>, AllocError>
    ensures { IfOk result (λ text.
        text.items ≡ spec.found_answer (data_of claim.now) step pieces) }
{
    let mut text = answer_text(alloc, "certificate found")?;
    add_claimed(&mut text, claim.bound_ns)?;
    add_line(&mut text, Style::Human, &[Field::Named("pieces", pieces)])?;
    let fields = [Field::Named("step", u64::from(step)), Field::Word("s")];
    add_line(&mut text, Style::Human, &fields)?;
    Ok(text)
}

/// The text for a person of an answer by a refutation, and of what that says: its error and when,
/// how that stands to the claim's bound, and which servers would be wrong.
#[tactic(auto, unfolding(crate::specs::Answer::refutation_answer))]
pub fn refutation_answer(
    alloc: Global,
    answer: &str,
    claim: &Claim,
    refutation: &Refutation,
) -> Result<Vec<u8>, AllocError>
    ensures { IfOk result (λ text. text.items ≡
        spec.refutation_answer answer.now (data_of claim.now) (refutation_data refutation.now)) }
{
    let mut text = answer_text(alloc, answer)?;
    add_refutation(&mut text, claim, refutation)?;
    Ok(text)
}

/// The text of `settle` for a person if the capture says nothing about the clock: how many groups
/// have a sample, and which servers have none.
#[tactic(auto, unfolding(crate::specs::Answer::evidence_answer))]
pub fn evidence_answer<X: ToExchange>(
    alloc: Global,
    claim: &Claim,
    exchanges: &[X],
    groups: u8,
) -> Result<Vec<u8>, AllocError>
    requires { length claim.now.servers.items ≤ max_servers }
    ensures { IfOk result (λ text. text.items ≡
        spec.evidence_answer (data_of claim.now) (map X.shown exchanges.now) groups) }
{
    let mut text = evidence_text(alloc, Style::Human, claim, groups)?;
    add_silents(&mut text, claim, exchanges)?;
    Ok(text)
}

/// The text of `settle` for a person if neither a certificate nor a refutation was found: the piece
/// that stays open and its hull in ticks, how much wider the least bound is that a certificate
/// carries, in nanoseconds, how many ticks the clock is off at most, if that's known, and how many
/// minimal covers were looked at, if there may be others.
#[tactic(auto, unfolding(crate::specs::Answer::open_answer))]
pub fn open_answer(
    alloc: Global,
    claim: &Claim,
    begin: i128,
    end: i128,
    hull: Hull,
    covers: u8,
    most: Option<i128>,
    least_ns: Option<u64>,
) -> Result<Vec<u8>, AllocError>
    ensures { IfOk result (λ text. text.items ≡
        spec.open_answer (data_of claim.now) begin end hull covers most least_ns) }
{
    let mut text = open_text(alloc, Style::Human, begin, end, hull)?;
    add_claimed(&mut text, claim.bound_ns)?;
    add_carried(&mut text, least_ns)?;
    add_wider(&mut text, claim.bound_ns, least_ns)?;
    add_most(&mut text, most)?;
    add_covers(&mut text, covers)?;
    Ok(text)
}

/// Adds the line of how many ticks the clock is off at most, if that's known.
#[tactic(auto, unfolding(crate::specs::Answer::most_line))]
fn add_most(text: &mut Vec<u8>, most: Option<i128>) -> Result<(), AllocError>
    ensures { IfOk result (λ _. text.new.items ≡ text.old.items ++ most_line most) }
{
    match most {
        Some(most) => {
            let fields = [
                Field::Word("off at most"),
                Field::High(most),
                Field::Word("ms"),
            ];
            add_line(text, Style::Human, &fields)
        }
        None => Ok(()),
    }
}

/// Adds the line of how many minimal covers were looked at, if there may be others.
#[tactic(auto, unfolding(crate::specs::Answer::covers_line))]
fn add_covers(text: &mut Vec<u8>, covers: u8) -> Result<(), AllocError>
    ensures { IfOk result (λ _. text.new.items ≡ text.old.items ++ covers_line covers) }
{
    if covers < 64 {
        return Ok(());
    }
    let others = Field::Word("looked at, there may be others");
    let fields = [Field::Named("covers", u64::from(covers)), others];
    add_line(text, Style::Human, &fields)
}
