//! The text of `check`.

ghost use Rattle.std.specs.Prelude.{◌≡◌, ◌≤◌, ◌++◌, IfOk, length};
ghost use Rattle.audit_text.specs.Common.{field_data, data_of, most_exchanges, compact_data};
ghost use Rattle.audit_text.specs.CheckReport as spec;
ghost use Rattle.audit_text.specs.CheckReport.{about_told, client_line, fits_line, groups_field, pieces_line, reference_advice, sources_advice, span_line};

use crate::counts_line::add_counts;
use crate::second::second_of;
use crate::table::word_for;
use crate::verdict_line::{AnyVerdict, add_verdict};
use claim_file::Claim;
use line_writer::{Field, Style, add_line};
use pairing::CompactCollection;
use std::alloc::{AllocError, Global};

/// The fewest servers with which one false one can be told from the others.
const ENOUGH_SOURCES: u8 = 4;

/// What is found on a claim, its exchanges and a certificate.
#[derive(Clone, Copy, Debug)]
pub struct Findings {
    /// How many groups of servers the claim has.
    pub groups: u32,
    /// How many of the claim's servers have a sample.
    pub sources: u8,
    /// The reference identifier that all samples' servers name, if they name one.
    pub reference: Option<[u8; 4]>,
    /// How many pieces the certificate has.
    pub pieces: u32,
    /// Whether any course of events fits the whole capture, if that is told.
    pub fits: Option<bool>,
    /// The verdict on the certificate.
    pub verdict: AnyVerdict,
}

/// How many groups there are, if one holds several servers.
fn groups_field(groups: u32, servers: u64) -> Field<'static>
    ensures { field_data result ≡ groups_field groups servers }
{
    if u64::from(groups) < servers {
        Field::Named("groups", u64::from(groups))
    } else {
        Field::Nothing
    }
}

/// Adds the line of the client and its servers.
#[tactic(auto, unfolding(crate::specs::CheckReport::client_line))]
fn add_client(
    text: &mut Vec<u8>,
    style: Style,
    claim: &Claim,
    groups: u32,
) -> Result<(), AllocError>
    ensures { IfOk result (λ _. text.new.items ≡
        text.old.items ++ client_line style (data_of claim.now) groups) }
{
    let servers = claim.servers.len() as u64;
    let fields = [
        Field::Word("client"),
        Field::Address(claim.client),
        Field::Named("servers", servers),
        Field::Named("false_max", u64::from(claim.false_max)),
        groups_field(groups, servers),
    ];
    add_line(text, style, &fields)
}

/// Adds the line of the span and of the numbers that are claimed.
#[tactic(auto, unfolding(crate::specs::CheckReport::span_line))]
fn add_span(text: &mut Vec<u8>, style: Style, claim: &Claim) -> Result<(), AllocError>
    ensures { IfOk result (λ _. text.new.items ≡
        text.old.items ++ span_line style (data_of claim.now)) }
{
    let fields = [
        Field::Word("span"),
        Field::Second(second_of(claim.first)),
        Field::Second(second_of(claim.last)),
        word_for(style, "bound_ns", "bound"),
        Field::Nanoseconds(u128::from(claim.bound_ns)),
        word_for(style, "drift_ppb", "drift"),
        Field::Billionths(claim.drift_ppb),
        word_for(style, "reading_ns", "reading"),
        Field::Nanoseconds(u128::from(claim.reading_ns)),
    ];
    add_line(text, style, &fields)
}

/// Adds the advice to ask more servers, if few have a sample.
#[tactic(auto, unfolding(crate::specs::CheckReport::sources_advice))]
fn add_sources_advice(text: &mut Vec<u8>, style: Style, count: u8) -> Result<(), AllocError>
    ensures { IfOk result (λ _. text.new.items ≡ text.old.items ++ sources_advice style count) }
{
    if count < ENOUGH_SOURCES {
        let sources = Field::Named("sources", u64::from(count));
        return add_line(text, style, &[Field::Word("advice"), sources]);
    }
    Ok(())
}

/// Adds the advice on servers that name one reference, if all do.
#[tactic(auto, unfolding(crate::specs::CheckReport::reference_advice))]
fn add_reference_advice(
    text: &mut Vec<u8>,
    style: Style,
    reference: Option<[u8; 4]>,
) -> Result<(), AllocError>
    ensures { IfOk result (λ _. text.new.items ≡
        text.old.items ++ reference_advice style reference) }
{
    if let Some(reference) = reference {
        let fields = [Field::Word("advice reference"), Field::Reference(reference)];
        return add_line(text, style, &fields);
    }
    Ok(())
}

/// Adds the line of how many pieces a certificate has.
fn add_pieces(text: &mut Vec<u8>, style: Style, pieces: u32) -> Result<(), AllocError>
    ensures { IfOk result (λ _. text.new.items ≡ text.old.items ++ pieces_line style pieces) }
{
    add_line(text, style, &[Field::Named("pieces", u64::from(pieces))])
}

/// Adds the line of whether any course of events fits the whole capture, if that is told.
fn add_fits(text: &mut Vec<u8>, style: Style, fits: Option<bool>) -> Result<(), AllocError>
    ensures { IfOk result (λ _. text.new.items ≡ text.old.items ++ fits_line style fits) }
{
    match fits {
        Some(true) => add_line(text, style, &[Field::Word("a course fits")]),
        Some(false) => add_line(text, style, &[Field::Word("no course fits: see settle")]),
        None => Ok(()),
    }
}

/// Adds whole lines.
fn add_lines(text: &mut Vec<u8>, lines: &[u8]) -> Result<(), AllocError>
    ensures { IfOk result (λ _. text.new.items ≡ text.old.items ++ lines.now) }
{
    text.extend_from_slice(lines)
}

/// Adds what stands about the inputs of a run, for a person alone.
pub fn add_about(text: &mut Vec<u8>, style: Style, about: &[u8]) -> Result<(), AllocError>
    ensures { IfOk result (λ _. text.new.items ≡ text.old.items ++ about_told style about.now) }
{
    match style {
        Style::Plain => Ok(()),
        _ => add_lines(text, about),
    }
}

/// The text of `check`: what is claimed, what became of the capture's records, what is advised,
/// what is told of `covers`, for a person whether any course fits and `about` the inputs, and the
/// verdict on a certificate.
#[tactic(auto, unfolding(crate::specs::CheckReport::check_text))]
pub fn check_text(
    alloc: Global,
    style: Style,
    claim: &Claim,
    held: &CompactCollection,
    findings: &Findings,
    covers: &[u8],
    about: &[u8],
) -> Result<Vec<u8>, AllocError>
    requires few { length held.now.exchanges.items ≤ most_exchanges }
    ensures { IfOk result (λ text. text.items ≡
        spec.check_text style (data_of claim.now) (compact_data held.now) findings.now
        covers.now about.now) }
{
    let mut text = Vec::new(alloc);
    add_client(&mut text, style, claim, findings.groups)?;
    add_span(&mut text, style, claim)?;
    add_counts(&mut text, held)?;
    add_sources_advice(&mut text, style, findings.sources)?;
    add_reference_advice(&mut text, style, findings.reference)?;
    add_pieces(&mut text, style, findings.pieces)?;
    add_lines(&mut text, covers)?;
    add_fits(&mut text, style, findings.fits)?;
    add_about(&mut text, style, about)?;
    add_verdict(&mut text, style, &findings.verdict)?;
    Ok(text)
}
