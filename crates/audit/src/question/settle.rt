//! What is made for `settle`.

ghost use Rattle.std.specs.Prelude.{◌≡◌, Some, IfOk};
ghost use Rattle.audit.specs.Common.{answer_data, settled_data};
ghost use Rattle.audit.specs.Evidence.{IsLawfulEvidence, evidence_data};
ghost use Rattle.audit.specs.Settle as spec;
ghost use Rattle.audit.specs.Settle.{IsAnswerOf, IsEnoughFor, IsSettledOf, finding_of, settled_outcome};

use crate::evidence::Evidence;
use crate::laws::bytes_tell_what_they_show;
use crate::least_line::least_if;
use crate::question::Question;
use crate::question::find::{run_fault_of, with_line_feed};
use crate::whole_text::{publish_text, with_about};
use audit_text::{
    conflicts_text, covers_answer, evidence_answer, evidence_text, open_answer, open_text,
    refutation_answer, shown_answer,
};
use byte_stream::Sink;
use certificate::{write_certificate, write_refutation};
use checker::laws::verdicts_are_traceable;
use cover_certificate::write_covers;
use cover_checker::laws::covers_are_traceable;
use cover_finder::Answer;
use finder::laws::samples_of_exchanges_keep_limits;
use finder::{LeastCarried, Settled};
use line_writer::Style;
use report::{Outcome, RunFault};
use std::alloc::{AllocError, Global};

/// Is the claim shown, refuted, fitted by no course of events, or does it stay open?
#[derive(Clone, Copy, Debug)]
pub struct Settle<'a> {
    /// What a person is told about the inputs, in whole lines.
    pub about: &'a [u8],
}

/// What settles a claim, and the least bound that a certificate carries, if it was looked for.
#[derive(Drop)]
pub struct Settlement {
    /// What settles the claim.
    pub(crate) answer: Answer,
    /// The least bound, none if it wasn't looked for; in it none if no bound is carried.
    pub(crate) least: Option<Option<LeastCarried>>,
}

/// The outcome of a settled claim.
fn outcome_of(answer: &Answer) -> Outcome
    ensures { result ≡ settled_outcome (answer_data answer.now) }
{
    match answer {
        Answer::OfFinder(Settled::Shown(_)) | Answer::ShownByCovers(_) => Outcome::Yes,
        Answer::OfFinder(_) => Outcome::No,
    }
}

/// The text for a program, if no covers are needed.
#[tactic(auto, unfolding(crate::specs::Settle::settled_text))]
fn settled_text(
    alloc: Global,
    evidence: &Evidence,
    settled: &Settled,
) -> Result<Vec<u8>, AllocError>
    requires evidence { IsLawfulEvidence evidence.now }
    requires settled { IsSettledOf (evidence_data evidence.now) (settled_data settled.now) }
    ensures { IfOk result (λ text. text.items
        ≡ spec.settled_text (evidence_data evidence.now) (settled_data settled.now)) }
{
    match settled {
        Settled::Shown(certificate) => with_line_feed(write_certificate(alloc, certificate)?),
        Settled::Refuted(refutation) => with_line_feed(write_refutation(alloc, refutation)?),
        Settled::NothingFits(conflicts) => {
            let exchanges = &evidence.held.exchanges;
            conflicts_text(alloc, Style::Plain, &evidence.claim, exchanges, conflicts)
        }
        Settled::NoEvidence { groups } => {
            evidence_text(alloc, Style::Plain, &evidence.claim, *groups)
        }
        Settled::Open {
            begin,
            end,
            hull,
            ..
        } => { open_text(alloc, Style::Plain, *begin, *end, *hull) }
    }
}

/// The text for a program.
fn program_text(alloc: Global, evidence: &Evidence, answer: &Answer) -> Result<Vec<u8>, AllocError>
    requires evidence { IsLawfulEvidence evidence.now }
    requires answer { IsAnswerOf (evidence_data evidence.now) (answer_data answer.now) }
    ensures { IfOk result (λ text. text.items
        ≡ spec.program_text (evidence_data evidence.now) (answer_data answer.now)) }
{
    match answer {
        Answer::OfFinder(settled) => settled_text(alloc, evidence, settled),
        Answer::ShownByCovers(certificate) => with_line_feed(write_covers(alloc, certificate)?),
    }
}

/// The text for a person, if no covers are needed, on the least bound in nanoseconds that a
/// certificate carries.
#[tactic(auto, unfolding(crate::specs::Settle::settled_answer))]
fn settled_answer(
    alloc: Global,
    evidence: &Evidence,
    least: Option<u64>,
    settled: &Settled,
) -> Result<Vec<u8>, AllocError>
    requires evidence { IsLawfulEvidence evidence.now }
    requires settled { IsSettledOf (evidence_data evidence.now) (settled_data settled.now) }
    ensures { IfOk result (λ text. text.items
        ≡ spec.settled_answer (evidence_data evidence.now) least (settled_data settled.now)) }
{
    let claim = &evidence.claim;
    let exchanges = &evidence.held.exchanges;
    match settled {
        Settled::Shown(certificate) => {
            shown_answer(alloc, claim, certificate.pieces.len() as u64, least)
        }
        Settled::Refuted(refutation) => refutation_answer(alloc, "refuted", claim, refutation),
        Settled::NothingFits(conflicts) => {
            conflicts_text(alloc, Style::Human, claim, exchanges, conflicts)
        }
        Settled::NoEvidence { groups } => evidence_answer(alloc, claim, exchanges, *groups),
        Settled::Open {
            begin,
            end,
            hull,
            covers,
            most,
        } => open_answer(alloc, claim, *begin, *end, *hull, *covers, *most, least),
    }
}

/// The text for a person.
fn person_text(
    alloc: Global,
    evidence: &Evidence,
    least: Option<u64>,
    answer: &Answer,
) -> Result<Vec<u8>, AllocError>
    requires evidence { IsLawfulEvidence evidence.now }
    requires answer { IsAnswerOf (evidence_data evidence.now) (answer_data answer.now) }
    ensures { IfOk result (λ text. text.items
        ≡ spec.person_text (evidence_data evidence.now) least (answer_data answer.now)) }
{
    match answer {
        Answer::OfFinder(settled) => settled_answer(alloc, evidence, least, settled),
        Answer::ShownByCovers(certificate) => {
            covers_answer(
                alloc,
                &evidence.claim,
                &evidence.held.exchanges,
                certificate,
            )
        }
    }
}

/// Whether a text in this style is on the least bound.
fn is_on_least(style: Style, answer: &Answer) -> bool
    ensures { result ≡ spec.is_on_least style (answer_data answer.now) }
{
    match style {
        Style::Plain => false,
        _ => matches!(
            answer,
            Answer::OfFinder(Settled::Shown(_) | Settled::Open { .. })
        ),
    }
}

/// The whole text.
#[tactic(auto, using(crate::proofs::SettlementText::answered))]
fn text_for(
    alloc: Global,
    style: Style,
    evidence: &Evidence,
    found: &Settlement,
) -> Result<Vec<u8>, AllocError>
    requires evidence { IsLawfulEvidence evidence.now }
    requires answer { IsAnswerOf (evidence_data evidence.now) (answer_data found.now.answer) }
    requires enough { IsEnoughFor style (evidence_data evidence.now) found.now }
    ensures { IfOk result (λ text. spec.text_for style (evidence_data evidence.now)
        found.now.least (answer_data found.now.answer) ≡ Some text.items) }
{
    match style {
        Style::Plain => program_text(alloc, evidence, &found.answer),
        _ => {
            let least = found.least.unwrap_or(None).map(|least| least.bound_ns);
            person_text(alloc, evidence, least, &found.answer)
        }
    }
}

impl<'a> Question for Settle<'a> {
    type Second = ();

    type Finding = Settlement;

    ghost asks = { λ asked. spec.settle asked.about.now };

    ghost finding = { finding_of };

    ghost IsFound = { λ _ style _ e found. IsEnoughFor style e found };

    #[tactic(auto, using(crate::proofs::SettlementShowing::settlement_found))]
    fn find(
        self,
        alloc: Global,
        style: Style,
        _second: &(),
        evidence: &Evidence,
    ) -> Result<Settlement, RunFault> {
        verdicts_are_traceable();
        samples_of_exchanges_keep_limits();
        covers_are_traceable();
        match cover_finder::settle(alloc, &evidence.held.exchanges, &evidence.claim) {
            Ok(answer) => match least_if(alloc, is_on_least(style, &answer), evidence) {
                Ok(least) => Ok(Settlement { answer, least }),
                Err(AllocError) => Err(RunFault::Memory),
            },
            Err(fault) => Err(run_fault_of(fault)),
        }
    }

    fn tell<S: Sink>(
        self,
        alloc: Global,
        style: Style,
        _second: &(),
        evidence: &Evidence,
        found: &Settlement,
        out: &mut S,
    ) -> Result<Outcome, RunFault> {
        bytes_tell_what_they_show();
        let text = text_for(alloc, style, evidence, found);
        let text = with_about(text, style, self.about);
        publish_text(out, text, outcome_of(&found.answer))
    }
}
