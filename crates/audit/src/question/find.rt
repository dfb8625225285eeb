//! What is made for `find`.

ghost use Rattle.std.specs.Prelude.{◌≡◌, ◌++◌, IfOk, codes, string_bytes};
ghost use Rattle.audit.specs.Common.{data_of, found_data};
ghost use Rattle.audit.specs.Find as spec;
ghost use Rattle.audit.specs.Question.{no_finding};

use crate::evidence::Evidence;
use crate::question::Question;
use crate::sample_list::samples_of;
use crate::whole_text::publish_text;
use audit_text::{found_answer, nothing_text};
use byte_stream::Sink;
use certificate::write_certificate;
use claim_file::Claim;
use envelope_text::Step;
use finder::{FindFault, Found, find_over};
use line_writer::Style;
use report::{Outcome, RunFault};
use std::alloc::{AllocError, Global};

/// Is there a certificate with pieces of one length?
#[derive(Clone, Copy, Debug)]
pub struct Find {
    /// How long the pieces are.
    pub step: Step,
}

/// What a run answers if no certificate could be looked for.
pub(crate) fn run_fault_of(fault: FindFault) -> RunFault
    ensures { result ≡ spec.find_run_fault_of fault }
{
    match fault {
        FindFault::TooManyPieces => RunFault::Pieces,
        FindFault::Memory => RunFault::Memory,
    }
}

/// The outcome of a search.
fn outcome_of(found: &Found) -> Outcome
    ensures { result ≡ spec.found_outcome (found_data found.now) }
{
    match found {
        Found::Certificate(_) => Outcome::Yes,
        Found::Nothing { .. } => Outcome::No,
    }
}

/// A text with a line feed.
pub(crate) fn with_line_feed(text: String) -> Result<Vec<u8>, AllocError>
    ensures { IfOk result (λ line. line.items ≡ string_bytes text ++ codes "\n") }
{
    let mut text = text;
    text.push_str("\n")?;
    Ok(text.into_bytes())
}

/// The whole text.
#[tactic(auto, unfolding(crate::specs::Find::found_text))]
fn found_text(
    alloc: Global,
    style: Style,
    step: Step,
    claim: &Claim,
    found: &Found,
) -> Result<Vec<u8>, AllocError>
    ensures { IfOk result (λ text. text.items
        ≡ spec.found_text (found_data found.now) style step.seconds (data_of claim.now)) }
{
    match found {
        Found::Certificate(certificate) => match style {
            Style::Plain => with_line_feed(write_certificate(alloc, certificate)?),
            _ => found_answer(alloc, claim, step.seconds, certificate.pieces.len() as u64),
        },
        Found::Nothing { piece, hull } => nothing_text(alloc, style, *piece, *hull),
    }
}

impl Question for Find {
    type Second = ();

    type Finding = Found;

    ghost asks = { λ asked. spec.find asked.step.seconds };

    ghost finding = { λ _. no_finding };

    ghost IsFound = { λ asked _ _ e found.
        spec.IsFoundBy asked.step.seconds e (found_data found) };

    #[tactic(auto, using(crate::proofs::SearchShowing::search_found))]
    fn find(
        self,
        alloc: Global,
        _style: Style,
        _second: &(),
        evidence: &Evidence,
    ) -> Result<Found, RunFault> {
        let claim = &evidence.claim;
        match find_over(alloc, samples_of(evidence), claim, self.step.seconds) {
            Ok(found) => Ok(found),
            Err(fault) => Err(run_fault_of(fault)),
        }
    }

    fn tell<S: Sink>(
        self,
        alloc: Global,
        style: Style,
        _second: &(),
        evidence: &Evidence,
        found: &Found,
        out: &mut S,
    ) -> Result<Outcome, RunFault> {
        let text = found_text(alloc, style, self.step, &evidence.claim, found);
        publish_text(out, text, outcome_of(found))
    }
}
