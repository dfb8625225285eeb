//! The texts of `settle` if it prints neither a certificate nor a refutation.

ghost use Rattle.std.specs.Prelude.{◌≡◌, ◌<◌, ◌++◌, IfOk, length, map, flat_map, All};
ghost use Rattle.audit_text.specs.Common.{data_of, conflict_data, IsLawful as IsLawfulExchange};
ghost use Rattle.audit_text.specs.Settlement as spec;
ghost use Rattle.audit_text.specs.Settlement.{conflict_line, pair_line};

use crate::sample_line::server_of;
use crate::table::{for_person, hull_high, hull_low};
use claim_file::{Claim, group_count};
use feasibility::Conflict;
use intersection::kinds::Hull;
use line_writer::{Field, Style, add_line};
use pairing::{Exchange, ToExchange};
use std::alloc::{AllocError, Global};

/// The text of `settle` if the capture says nothing about the clock: how many of the claim's groups
/// have a sample, and how many may be false.
#[tactic(auto, unfolding(crate::specs::Settlement::evidence_text))]
pub fn evidence_text(
    alloc: Global,
    style: Style,
    claim: &Claim,
    groups: u8,
) -> Result<Vec<u8>, AllocError>
    ensures { IfOk result (λ text. text.items
        ≡ spec.evidence_text style (data_of claim.now) groups) }
{
    let mut text = Vec::new(alloc);
    let fields = [
        Field::Word("no evidence"),
        Field::Named("groups", u64::from(groups)),
        Field::Named("of", u64::from(group_count(claim.groups.as_slice()))),
        Field::Named("false_max", u64::from(claim.false_max)),
    ];
    add_line(&mut text, style, &fields)?;
    Ok(text)
}

/// The text of `settle` if neither a certificate nor a refutation was found: the begin and the end
/// of the piece that stays open, in ticks of 2^-32 s since 1970, and its hull.
#[tactic(auto, unfolding(crate::specs::Settlement::open_text))]
pub fn open_text(
    alloc: Global,
    style: Style,
    begin: i128,
    end: i128,
    hull: Hull,
) -> Result<Vec<u8>, AllocError>
    ensures { IfOk result (λ text. text.items ≡ spec.open_text style begin end hull) }
{
    let mut text = Vec::new(alloc);
    let fields = [
        Field::Word("open"),
        Field::TimeBelow(begin),
        Field::TimeAbove(end),
        Field::Word("hull"),
        hull_low(hull),
        hull_high(hull),
    ];
    add_line(&mut text, style, &fields)?;
    Ok(text)
}

/// Adds the line of two exchanges that can't both be of true servers.
#[tactic(auto, unfolding(crate::specs::Settlement::pair_line))]
pub(crate) fn add_pair(
    text: &mut Vec<u8>,
    style: Style,
    claim: &Claim,
    low: &Exchange,
    high: &Exchange,
) -> Result<(), AllocError>
    requires low { IsLawfulExchange (length claim.now.servers.items) low.now }
    requires high { IsLawfulExchange (length claim.now.servers.items) high.now }
    ensures { IfOk result (λ _. text.new.items ≡
        text.old.items ++ pair_line style (data_of claim.now) low.now high.now) }
{
    let fields = [
        Field::Word("conflict"),
        Field::Address(server_of(claim, low.server)),
        for_person(style, Field::Word("request")),
        Field::Number(u64::from(low.request)),
        for_person(style, Field::Word("at")),
        for_person(style, Field::TimeAbove(low.t1_low)),
        Field::Address(server_of(claim, high.server)),
        for_person(style, Field::Word("reply")),
        Field::Number(u64::from(high.reply)),
        for_person(style, Field::Word("at")),
        for_person(style, Field::TimeAbove(high.t4_low)),
    ];
    add_line(text, style, &fields)
}

/// Adds the line of a conflict.
fn add_conflict<X: ToExchange>(
    text: &mut Vec<u8>,
    style: Style,
    claim: &Claim,
    exchanges: &[X],
    conflict: &Conflict,
) -> Result<(), AllocError>
    requires exchanges { All (IsLawfulExchange (length claim.now.servers.items))
        (map X.shown exchanges.now) }
    requires low { conflict.now.pair.low < length exchanges.now }
    requires high { conflict.now.pair.high < length exchanges.now }
    ensures { IfOk result (λ _. text.new.items ≡ text.old.items ++ conflict_line style
        (data_of claim.now) (map X.shown exchanges.now) (conflict_data conflict.now)) }
{
    let low = exchanges[conflict.pair.low].to_exchange();
    let high = exchanges[conflict.pair.high].to_exchange();
    add_pair(text, style, claim, &low, &high)
}

/// Adds the line of each conflict.
fn add_conflicts<X: ToExchange>(
    text: &mut Vec<u8>,
    style: Style,
    claim: &Claim,
    exchanges: &[X],
    conflicts: &[Conflict],
) -> Result<(), AllocError>
    requires exchanges { All (IsLawfulExchange (length claim.now.servers.items))
        (map X.shown exchanges.now) }
    requires numbers { All (λ conflict. (conflict.pair.low < length exchanges.now)
        × (conflict.pair.high < length exchanges.now)) conflicts.now }
    ensures { IfOk result (λ _. text.new.items ≡ text.old.items ++ flat_map
        (λ conflict. conflict_line style (data_of claim.now) (map X.shown exchanges.now)
        (conflict_data conflict)) conflicts.now) }
{
    for conflict in conflicts {
        add_conflict(text, style, claim, exchanges, conflict)?;
    }
    Ok(())
}

/// The text of `settle` if no course of events fits the exchanges: a line for each conflict, with
/// the servers of its two exchanges and the numbers of a request's and a reply's record, and then
/// that nothing fits.
#[tactic(auto, unfolding(crate::specs::Settlement::conflicts_text))]
pub fn conflicts_text<X: ToExchange>(
    alloc: Global,
    style: Style,
    claim: &Claim,
    exchanges: &[X],
    conflicts: &[Conflict],
) -> Result<Vec<u8>, AllocError>
    requires exchanges { All (IsLawfulExchange (length claim.now.servers.items))
        (map X.shown exchanges.now) }
    requires numbers { All (λ conflict. (conflict.pair.low < length exchanges.now)
        × (conflict.pair.high < length exchanges.now)) conflicts.now }
    ensures { IfOk result (λ text. text.items ≡ spec.conflicts_text style (data_of claim.now)
        (map X.shown exchanges.now) (map conflict_data conflicts.now)) }
{
    let mut text = Vec::new(alloc);
    add_conflicts(&mut text, style, claim, exchanges, conflicts)?;
    add_line(&mut text, style, &[Field::Word("nothing fits")])?;
    Ok(text)
}
