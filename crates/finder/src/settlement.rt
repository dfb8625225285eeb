//! What settles a claim.
//!
//! The search goes so. If no cover is small enough, no course fits, and all conflicts are listed.
//! Otherwise the samples of each server are laid out in a table once (crate sweep), which says by a
//! search what they say over any stretch. By these the longest pieces are taken one after another
//! (reach.rt): if they reach the span's end, the claim is shown. If not, a refutation with drift is
//! tried for each minimal cover, where the pieces stop and at the tick that needs most with the
//! cover left out (neediest.rt), and one without drift last. The claim is open if none stands.

ghost use Rattle.std.specs.Prelude.{◌≡◌, ◌<◌, ◌≤◌, pos, length, map, All, IfOk, IfSome, Some};
ghost use Rattle.finder.specs.Common.{option_map, data_of as claim_data, samples_of, IsConflictTable, count_with_exchange, AreSamplesOf, IsLawful as IsLawfulExchange, most_exchanges};
ghost use Rattle.feasibility.specs.ConflictsView.{data_of};
ghost use Rattle.finder.specs.Reach.{AreTablesFor};
ghost use Rattle.finder.specs.Settlement.{IsFitted, IsHeard, IsSearched, Settles};

use crate::drift_refutation::find_with_cover;
use crate::fault::FindFault;
use crate::fewest::certificate_over;
use crate::longest::{tables_for, tick_after};
use crate::nearest_refutation::find_refutation;
use crate::neediest::{most_with, neediest_tick, splits_for};
use crate::reach::{Reach, longest_ends};
use certificate::{Certificate, Refutation};
use claim_file::Claim;
use feasibility::laws::{
    ends_of_all_conflicts_are_a_cover, false_groups_are_a_cover, few_groups_are_no_evidence,
    no_evidence_gives_no_yes, refutations_are_settled, refutations_without_drift_stand,
    some_course_fits_where_a_cover_is_small, some_course_is_observed_at_any_reading,
    tables_settle_covers,
};
use feasibility::{Conflict, Conflicts, conflicts_of, first_contradictions, groups_with_exchanges};
use intersection::kinds::Hull;
use pairing::ToExchange;
use sample_interval::{ExchangeSamples, SampleSource};
use std::alloc::{AllocError, Global};
use sweep::BestTable;

/// One of five answers to a claim, with what proves it.
#[derive(Drop)]
pub enum Settled {
    /// The claim is shown: by a certificate that the checker accepts, of as few pieces as can be.
    Shown(Certificate),
    /// The claim is refuted: by a refutation that stands if the clock drifts as the claim grants.
    Refuted(Refutation),
    /// No course of events fits the exchanges: these are all conflicts, in the order of the groups.
    NothingFits(Vec<Conflict>),
    /// The capture says nothing about the clock: no more groups have a sample than may be false.
    NoEvidence {
        /// How many groups have a sample.
        groups: u8,
    },
    /// Neither was found, and no certificate is accepted.
    Open {
        /// Where the first tick begins that isn't shown, in Unix ticks of 2^-32 s.
        begin: i128,
        /// Where it ends: a tick later, or the same if the span is one moment.
        end: i128,
        /// The hull of the best entries there, in ticks, over the groups of servers.
        hull: Hull,
        /// How many minimal covers were looked at: all, or 64.
        covers: u8,
        /// How many ticks the clock is off at most at any reading of the span, whatever course
        /// fits. It's known if all minimal covers were looked at, and for each the search for the
        /// tick that needs most came to its end.
        most: Option<i128>,
    },
}

/// The samples of the exchanges, in their order, with the claimed allowance. Each is made when it
/// is asked for.
pub fn exchange_samples<'a, X: ToExchange>(
    exchanges: &'a [X],
    claim: &Claim,
) -> ExchangeSamples<'a, X>
    requires exchanges { All (IsLawfulExchange (length claim.now.servers.items))
        (map X.shown exchanges.now) }
    ensures samples { ⟦<ExchangeSamples<'a, X> as SampleSource>⟧.samples result
        ≡ samples_of (map X.shown exchanges.now) (claim_data claim.now) }
    ensures of_claim { AreSamplesOf (claim_data claim.now)
        (samples_of (map X.shown exchanges.now) (claim_data claim.now)) }
    ensures as_many { length (samples_of (map X.shown exchanges.now) (claim_data claim.now))
        ≡ length exchanges.now }
{
    ExchangeSamples {
        exchanges,
        reading: claim.reading,
    }
}

/// How many groups have a sample.
fn groups_heard<X: ToExchange>(exchanges: &[X], claim: &Claim) -> u8
    requires exchanges { All (IsLawfulExchange (length claim.now.servers.items))
        (map X.shown exchanges.now) }
    ensures { result ≡ count_with_exchange (claim_data claim.now) (map X.shown exchanges.now) }
{
    groups_with_exchanges(exchanges, claim).count(claim.servers.len() as u8)
}

/// What a search for a refutation came to.
#[derive(Drop)]
enum Search {
    /// This one stands.
    Found(Refutation),
    /// None was found with this many minimal covers, 64 if there are more. If it's known, this is
    /// how many ticks the clock is off at most.
    Nothing { covers: u8, most: Option<i128> },
}

/// How many ticks the clock is off at most, if these are all minimal covers.
fn if_all(most: Option<u128>, covers: usize) -> Option<i128>
    ensures { IfSome result (λ found. (covers < 64) × (option_map pos most ≡ Some found)) }
{
    if covers < 64 {
        i128::try_from(most?).ok()
    } else {
        None
    }
}

/// A refutation with drift, if one is found: for each minimal cover at both ends of the tick that
/// needs most with it left out, and at these readings; and then, if there is one, a refutation
/// without drift.
fn refutation_of<X: ToExchange>(
    alloc: Global,
    exchanges: &[X],
    claim: &Claim,
    conflicts: &Conflicts,
    tables: &[BestTable],
    readings: &[u64],
) -> Result<Search, AllocError>
    requires exchanges { All (IsLawfulExchange (length claim.now.servers.items))
        (map X.shown exchanges.now) }
    requires groups { (data_of conflicts.now).groups ≡ length claim.now.groups.items }
    requires table { IsConflictTable (claim_data claim.now) (map X.shown exchanges.now)
        (data_of conflicts.now).is_broken (data_of conflicts.now).is_edge }
    requires tables { AreTablesFor (samples_of (map X.shown exchanges.now) (claim_data claim.now))
        (claim_data claim.now) tables.now }
    ensures { IfOk result (IsSearched (claim_data claim.now) (map X.shown exchanges.now)
        readings.now) }
{
    tables_settle_covers();
    false_groups_are_a_cover();
    refutations_without_drift_stand();
    refutations_are_settled();
    let least = conflicts.covers(claim.false_max);
    let covers = least.as_slice();
    let splits = splits_for(exchanges.len(), covers.len());
    let mut most = Some(0);
    for cover in covers {
        let cover = *cover;
        let neediest = neediest_tick(alloc, tables, claim, cover, splits)?;
        most = most_with(most, neediest);
        if let Some(found) = neediest {
            let begin = found.tick.begin;
            let ends = [begin, tick_after(begin, claim.last as u64)];
            if let Some(there) = find_with_cover(exchanges, claim, conflicts, cover, &ends) {
                return Ok(Search::Found(there));
            }
        }
        if let Some(found) = find_with_cover(exchanges, claim, conflicts, cover, readings) {
            return Ok(Search::Found(found));
        }
    }
    match find_refutation(exchanges, claim) {
        Some(steady) => Ok(Search::Found(steady)),
        None => Ok(Search::Nothing {
            covers: covers.len() as u8,
            most: if_all(most, covers.len()),
        }),
    }
}

/// Settles a claim of which a course fits the exchanges, if more groups have a sample than may be
/// false. These are the conflicts.
fn settle_heard<X: ToExchange>(
    alloc: Global,
    exchanges: &[X],
    claim: &Claim,
    conflicts: &Conflicts,
) -> Result<Settled, FindFault>
    requires exchanges { All (IsLawfulExchange (length claim.now.servers.items))
        (map X.shown exchanges.now) }
    requires few { length exchanges.now ≤ most_exchanges }
    requires groups { (data_of conflicts.now).groups ≡ length claim.now.groups.items }
    requires table { IsConflictTable (claim_data claim.now) (map X.shown exchanges.now)
        (data_of conflicts.now).is_broken (data_of conflicts.now).is_edge }
    requires heard { IsHeard (claim_data claim.now) (map X.shown exchanges.now) }
    requires courses { IsFitted (claim_data claim.now) (map X.shown exchanges.now) }
    ensures { Settles (claim_data claim.now) (map X.shown exchanges.now) result }
{
    let samples = exchange_samples(exchanges, claim);
    let tables = tables_for(alloc, samples, claim)?;
    match longest_ends(alloc, &tables, claim)? {
        Reach::End(ends) => {
            let certificate = certificate_over(alloc, samples, claim, ends.as_slice())?;
            Ok(Settled::Shown(certificate))
        }
        Reach::Stuck { begin, end, hull } => {
            match refutation_of(alloc, exchanges, claim, conflicts, &tables, &[begin, end])? {
                Search::Found(refutation) => Ok(Settled::Refuted(refutation)),
                Search::Nothing { covers, most } => Ok(Settled::Open {
                    begin: i128::from(begin),
                    end: i128::from(end),
                    hull,
                    covers,
                    most,
                }),
            }
        }
        Reach::TooLong { .. } => {
            match refutation_of(alloc, exchanges, claim, conflicts, &tables, &[])? {
                Search::Found(refutation) => Ok(Settled::Refuted(refutation)),
                Search::Nothing { .. } => Err(FindFault::TooManyPieces),
            }
        }
    }
}

/// Settles a claim: by a certificate if there is one, or else by a refutation with drift if one is
/// found. If no course of events fits the exchanges, or no more groups have a sample than may be
/// false, neither is looked for.
///
/// There are at most 1,000,000 exchanges. `TooManyPieces` comes if a course fits, 100,000 of the
/// longest pieces don't reach the span's end and no refutation is found, and `Memory` if none is
/// left.
pub fn settle<X: ToExchange>(
    alloc: Global,
    exchanges: &[X],
    claim: &Claim,
) -> Result<Settled, FindFault>
    requires exchanges { All (IsLawfulExchange (length claim.now.servers.items))
        (map X.shown exchanges.now) }
    requires few { length exchanges.now ≤ most_exchanges }
    ensures { Settles (claim_data claim.now) (map X.shown exchanges.now) result }
{
    some_course_fits_where_a_cover_is_small();
    some_course_is_observed_at_any_reading();
    ends_of_all_conflicts_are_a_cover();
    few_groups_are_no_evidence();
    no_evidence_gives_no_yes();
    let conflicts = conflicts_of(alloc, exchanges, claim)?;
    if !conflicts.has_cover(claim.false_max) {
        let listed = first_contradictions(alloc, exchanges, claim, &conflicts)?;
        return Ok(Settled::NothingFits(listed));
    }
    let groups = groups_heard(exchanges, claim);
    if groups <= claim.false_max {
        return Ok(Settled::NoEvidence { groups });
    }
    settle_heard(alloc, exchanges, claim, &conflicts)
}
