//! What `check` tells of a certificate by covers before the verdict.

ghost use Rattle.std.specs.Prelude.{◌≡◌, ◌<◌, ◌≤◌, ◌++◌, IfOk, length, map, flat_map, All};
ghost use Rattle.audit_text.specs.Common.{case_data, covers_data, data_of, names, IsLawful as IsLawfulExchange};
ghost use Rattle.audit_text.specs.CoverLines as spec;
ghost use Rattle.audit_text.specs.CoverLines.{apart_line, case_lines, cases_to, named_line, wrong_line, wrong_to};

use crate::sample_line::server_of;
use crate::settlement::add_pair;
use crate::table::is_plain;
use claim_file::Claim;
use cover_certificate::{Case, CoverCertificate};
use cover_checker::{exchange_named, missed_by};
use error_marks::{high_mark, low_mark};
use line_writer::{Field, Style, add_line};
use pairing::{Exchange, ToExchange};
use std::alloc::{AllocError, Global};

/// Adds by how many ticks two exchanges miss each other, for a person.
#[tactic(auto, unfolding(crate::specs::CoverLines::apart_line))]
fn add_apart(
    text: &mut Vec<u8>,
    style: Style,
    claim: &Claim,
    low: &Exchange,
    high: &Exchange,
) -> Result<(), AllocError>
    requires low { IsLawfulExchange (length claim.now.servers.items) low.now }
    requires high { IsLawfulExchange (length claim.now.servers.items) high.now }
    ensures { IfOk result (λ _. text.new.items ≡
        text.old.items ++ apart_line style (data_of claim.now) low.now high.now) }
{
    if is_plain(style) {
        return Ok(());
    }
    let low = low_mark(low, claim.reading);
    let high = high_mark(high, claim.reading);
    let ticks = Field::Low(missed_by(claim.drift_ppb, low, high));
    add_line(
        text,
        style,
        &[Field::Word("apart by"), ticks, Field::Word("ms")],
    )
}

/// Adds the lines of two exchanges by their numbers, if both are there.
fn add_named<X: ToExchange>(
    text: &mut Vec<u8>,
    style: Style,
    claim: &Claim,
    exchanges: &[X],
    pair: (u32, u32),
) -> Result<(), AllocError>
    requires exchanges { All (IsLawfulExchange (length claim.now.servers.items))
        (map X.shown exchanges.now) }
    ensures { IfOk result (λ _. text.new.items ≡ text.old.items
        ++ named_line style (data_of claim.now) (map X.shown exchanges.now) pair) }
{
    let Some(low) = exchange_named(exchanges, pair.0) else {
        return Ok(());
    };
    let Some(high) = exchange_named(exchanges, pair.1) else {
        return Ok(());
    };
    add_pair(text, style, claim, &low, &high)?;
    add_apart(text, style, claim, &low, &high)
}

/// Adds the lines of each conflict that is named.
fn add_all_named<X: ToExchange>(
    text: &mut Vec<u8>,
    style: Style,
    claim: &Claim,
    exchanges: &[X],
    conflicts: &[(u32, u32)],
) -> Result<(), AllocError>
    requires exchanges { All (IsLawfulExchange (length claim.now.servers.items))
        (map X.shown exchanges.now) }
    ensures { IfOk result (λ _. text.new.items ≡ text.old.items ++ flat_map
        (named_line style (data_of claim.now) (map X.shown exchanges.now)) conflicts.now) }
{
    for pair in conflicts {
        add_named(text, style, claim, exchanges, *pair)?;
    }
    Ok(())
}

/// Whether a case takes a group for wrong.
fn takes_for_wrong(case: &Case, group: u8) -> bool
    ensures { result ≡ names (case_data case.now) group }
{
    case.groups.as_slice().iter().any(|named| *named == group)
}

/// Adds the line of the server with this number, if the case takes its group for wrong.
#[tactic(auto, unfolding(crate::specs::CoverLines::wrong_line))]
fn add_wrong(
    text: &mut Vec<u8>,
    style: Style,
    claim: &Claim,
    case: &Case,
    server: u8,
) -> Result<(), AllocError>
    requires { server < length claim.now.servers.items }
    ensures { IfOk result (λ _. text.new.items ≡ text.old.items
        ++ wrong_line style (data_of claim.now) (case_data case.now) server) }
{
    if !takes_for_wrong(case, claim.groups[server as usize]) {
        return Ok(());
    }
    let address = Field::Address(server_of(claim, server));
    add_line(text, style, &[Field::Word("wrong"), address])
}

/// Adds the line of each server that a case takes for wrong.
fn add_wrongs(
    text: &mut Vec<u8>,
    style: Style,
    claim: &Claim,
    case: &Case,
) -> Result<(), AllocError>
    ensures { IfOk result (λ _. text.new.items ≡ text.old.items ++ wrong_to style
        (data_of claim.now) (case_data case.now) (length claim.now.servers.items)) }
{
    for server in 0..claim.servers.len() as u8 {
        add_wrong(text, style, claim, case, server)?;
    }
    Ok(())
}

/// Adds the lines of a case with this number.
#[tactic(auto, unfolding(crate::specs::CoverLines::case_lines))]
fn add_case(
    text: &mut Vec<u8>,
    style: Style,
    claim: &Claim,
    number: usize,
    case: &Case,
) -> Result<(), AllocError>
    ensures { IfOk result (λ _. text.new.items ≡ text.old.items
        ++ case_lines style (data_of claim.now) number (case_data case.now)) }
{
    let fields = [
        Field::Named("case", number as u64),
        Field::Named("pieces", case.pieces.len() as u64),
    ];
    add_line(text, style, &fields)?;
    add_wrongs(text, style, claim, case)
}

/// Adds the lines of all cases.
fn add_cases(
    text: &mut Vec<u8>,
    style: Style,
    claim: &Claim,
    cases: &[Case],
) -> Result<(), AllocError>
    ensures { IfOk result (λ _. text.new.items ≡ text.old.items ++ cases_to style
        (data_of claim.now) (map case_data cases.now) (length cases.now)) }
{
    for number in 0..cases.len() {
        add_case(text, style, claim, number, &cases[number])?;
    }
    Ok(())
}

/// The exchanges by which groups are caught, and the cases with the servers that each takes for
/// wrong.
#[tactic(auto, unfolding(crate::specs::CoverLines::covers_text))]
pub fn covers_text<X: ToExchange>(
    alloc: Global,
    style: Style,
    claim: &Claim,
    exchanges: &[X],
    certificate: &CoverCertificate,
) -> Result<Vec<u8>, AllocError>
    requires exchanges { All (IsLawfulExchange (length claim.now.servers.items))
        (map X.shown exchanges.now) }
    ensures { IfOk result (λ text. text.items ≡ spec.covers_text style (data_of claim.now)
        (map X.shown exchanges.now) (covers_data certificate.now)) }
{
    let mut text = Vec::new(alloc);
    add_all_named(&mut text, style, claim, exchanges, &certificate.conflicts)?;
    add_cases(&mut text, style, claim, &certificate.cases)?;
    Ok(text)
}
