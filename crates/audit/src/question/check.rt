//! What is made for `check`.

ghost use Rattle.std.specs.Prelude.{◌≡◌, ◌≤◌, IfOk, Some, sum_by, vec_len};
ghost use Rattle.audit.specs.Common.{IsFewOfAny, any_data, max_pieces};
ghost use Rattle.audit.specs.Check as spec;
ghost use Rattle.audit.specs.Evidence.{IsLawfulEvidence, evidence_data};

use crate::evidence::Evidence;
use crate::laws::bytes_tell_what_they_show;
use crate::question::Question;
use crate::whole_text::publish_text;
use audit_text::{AnyVerdict, Findings, check_text, covers_text};
use byte_stream::Sink;
use checker::{Verdict, check_exchanges};
use claim_file::group_count;
use cover_certificate::{AnyCertificate, Case};
use cover_checker::{CoverVerdict, check_covers};
use feasibility::course_fits;
use line_writer::Style;
use pairing::{common_reference, source_count};
use report::{Outcome, RunFault};
use std::alloc::{AllocError, Global};

/// Does a certificate, the second input, show the claim?
#[derive(Clone, Copy, Debug)]
pub struct Check<'a> {
    /// What a person is told about the inputs, in whole lines.
    pub about: &'a [u8],
}

/// The outcome of a verdict.
fn outcome_of(verdict: &AnyVerdict) -> Outcome
    ensures { result ≡ spec.outcome_of verdict.now }
{
    match verdict {
        AnyVerdict::OfPieces(Verdict::Yes) | AnyVerdict::ByCovers(CoverVerdict::Yes) =>
            Outcome::Yes,
        _ => Outcome::No,
    }
}

/// Whether any course of events fits, if that is told in this style.
fn fits_told(style: Style, found: &Option<bool>) -> Option<bool>
    requires { spec.IsEnoughFor style found.now }
    ensures { spec.fits_told style found.now ≡ Some result }
{
    match style {
        Style::Plain => None,
        _ => match found {
            Some(fits) => Some(*fits),
            None => unreachable!(),
        },
    }
}

/// The verdict on a certificate of either form.
fn verdict_on(certificate: &AnyCertificate, evidence: &Evidence) -> AnyVerdict
    requires few { IsFewOfAny (any_data certificate.now) }
    requires evidence { IsLawfulEvidence evidence.now }
    ensures exact { result ≡
        spec.any_verdict_on (any_data certificate.now) (evidence_data evidence.now) }
    ensures shows { spec.HasVerdict (any_data certificate.now) (evidence_data evidence.now)
        (spec.outcome_of result) }
{
    let (claim, exchanges) = (&evidence.claim, &evidence.held.exchanges);
    match certificate {
        AnyCertificate::OfPieces(pieces) => {
            AnyVerdict::OfPieces(check_exchanges(exchanges, claim, pieces))
        }
        AnyCertificate::ByCovers(covers) => {
            AnyVerdict::ByCovers(check_covers(exchanges, claim, covers))
        }
    }
}

/// How many pieces cases have.
fn pieces_of_cases(cases: &[Case]) -> u32
    requires { sum_by (λ case. vec_len case.pieces) cases.now ≤ max_pieces }
    ensures { result ≡ sum_by (λ case. vec_len case.pieces) cases.now }
{
    cases.iter().map(|case| case.pieces.len()).sum::<usize>() as u32
}

/// How many pieces a certificate has.
fn pieces_of(certificate: &AnyCertificate) -> u32
    requires { IsFewOfAny (any_data certificate.now) }
    ensures { result ≡ spec.pieces_of (any_data certificate.now) }
{
    match certificate {
        AnyCertificate::OfPieces(pieces) => pieces.pieces.len() as u32,
        AnyCertificate::ByCovers(covers) => pieces_of_cases(&covers.cases),
    }
}

/// What is calculated for the report, the verdict among it, beside whether any course fits.
fn findings_on(certificate: &AnyCertificate, evidence: &Evidence, fits: Option<bool>) -> Findings
    requires few { IsFewOfAny (any_data certificate.now) }
    requires evidence { IsLawfulEvidence evidence.now }
    ensures exact { result ≡
        spec.findings_on (any_data certificate.now) (evidence_data evidence.now) fits }
    ensures shows { spec.HasVerdict (any_data certificate.now) (evidence_data evidence.now)
        (spec.outcome_of result.verdict) }
{
    let claim = &evidence.claim;
    let exchanges = &evidence.held.exchanges;
    Findings {
        groups: group_count(&claim.groups),
        sources: source_count(exchanges, claim.servers.len() as u8),
        reference: common_reference(exchanges),
        pieces: pieces_of(certificate),
        fits,
        verdict: verdict_on(certificate, evidence),
    }
}

/// What is told of a certificate before the verdict.
fn covers_told(
    alloc: Global,
    style: Style,
    certificate: &AnyCertificate,
    evidence: &Evidence,
) -> Result<Vec<u8>, AllocError>
    requires { IsLawfulEvidence evidence.now }
    ensures { IfOk result (λ text. text.items ≡
        spec.covers_told style (any_data certificate.now) (evidence_data evidence.now)) }
{
    match certificate {
        AnyCertificate::OfPieces(_) => Ok(Vec::new(alloc)),
        AnyCertificate::ByCovers(covers) => {
            covers_text(
                alloc,
                style,
                &evidence.claim,
                &evidence.held.exchanges,
                covers,
            )
        }
    }
}

/// The whole text.
fn text_on(
    alloc: Global,
    style: Style,
    certificate: &AnyCertificate,
    evidence: &Evidence,
    findings: &Findings,
    about: &[u8],
) -> Result<Vec<u8>, AllocError>
    requires { IsLawfulEvidence evidence.now }
    ensures { IfOk result (λ text. text.items ≡ spec.text_on style (any_data certificate.now)
        (evidence_data evidence.now) findings.now about.now) }
{
    let covers = covers_told(alloc, style, certificate, evidence)?;
    let (claim, held) = (&evidence.claim, &evidence.held);
    check_text(
        alloc,
        style,
        claim,
        held,
        findings,
        covers.as_slice(),
        about,
    )
}

impl<'a> Question for Check<'a> {
    type Second = AnyCertificate;

    type Finding = Option<bool>;

    ghost asks = { λ asked. spec.check asked.about.now };

    ghost finding = { spec.fit_finding };

    ghost IsFound = { λ _ style _ _ found. spec.IsEnoughFor style found };

    #[tactic(auto, using(crate::proofs::VerdictShowing::fits_found))]
    fn find(
        self,
        alloc: Global,
        style: Style,
        _second: &AnyCertificate,
        evidence: &Evidence,
    ) -> Result<Option<bool>, RunFault> {
        match style {
            Style::Plain => Ok(None),
            _ => match course_fits(alloc, &evidence.held.exchanges, &evidence.claim) {
                Ok(fits) => Ok(Some(fits)),
                Err(AllocError) => Err(RunFault::Memory),
            },
        }
    }

    fn tell<S: Sink>(
        self,
        alloc: Global,
        style: Style,
        second: &AnyCertificate,
        evidence: &Evidence,
        found: &Option<bool>,
        out: &mut S,
    ) -> Result<Outcome, RunFault> {
        bytes_tell_what_they_show();
        let findings = findings_on(second, evidence, fits_told(style, found));
        let text = text_on(alloc, style, second, evidence, &findings, self.about);
        publish_text(out, text, outcome_of(&findings.verdict))
    }
}
