//! The least bound that a certificate carries.

ghost use Rattle.std.specs.Prelude.{◌≡◌, ◌≤◌, pos, ◌≤ℤ◌, List, length, Option, IfOk, MatchOption};
ghost use Rattle.finder.specs.Common as common;
ghost use Rattle.finder.specs.Common.{data_of as claim_data, max_bound_ns, most_exchanges, Sample as TheSample, AreSamplesOf};
ghost use Rattle.finder.specs.Carried as spec;
ghost use Rattle.finder.specs.Carried.{FindsLeastBound, IsCarried, StopsAt};
ghost use Rattle.finder.specs.Piece.{IsStep};
ghost use Rattle.finder.specs.Reach.{AreTablesFor, IsTabled};

use crate::guess::likely_least;
use crate::longest::tables_for;
use crate::neediest::likely_bound;
use crate::reach::{Reach, longest_ends};
use crate::trial::trial;
use claim_file::{Claim, MAX_BOUND_NS, with_bound};
use era_unfold::TICKS_PER_SECOND;
use feasibility::Groups;
use sample_interval::SampleSource;
use std::alloc::{AllocError, Global};
use sweep::BestTable;

/// The least bound with which a certificate is found.
#[derive(Clone, Copy, Debug, PartialEq, Eq)]
pub struct LeastCarried {
    /// The bound in nanoseconds, at most 10^15.
    pub bound_ns: u64,
    /// The Unix tick of 2^-32 s at which the search stops with a nanosecond less: the one that the
    /// longest pieces come to, and the next one isn't shown, or 100,000 pieces come no further.
    /// With a bound of 0 it is the span's first.
    pub tick: u64,
}

/// The least bound with which a certificate of fewest pieces is found, whatever the claim's own
/// bound is; none if there is none with the greatest that a claim may have, 10^15 ns.
///
/// The samples are those of all exchanges, in their order, at most 1,000,000. The search begins at
/// the bound that the neediest tick needs where the groups of one of the covers have no say; which
/// covers are given changes nothing but the time.
///
/// The only error is that memory has run out.
pub fn least_bound<S: SampleSource>(
    alloc: Global,
    samples: S,
    claim: &Claim,
    covers: &[Groups],
) -> Result<Option<LeastCarried>, AllocError>
    requires samples { AreSamplesOf (claim_data claim.now) (S.samples samples) }
    requires few { length (S.samples samples) ≤ most_exchanges }
    ensures { FindsLeastBound (S.samples samples) (claim_data claim.now) result }
{
    let tables = tables_for(alloc, samples, claim)?;
    let start = likely_bound(alloc, &tables, claim, covers, samples.count())?;
    let near = likely_least(alloc, &tables, claim, start)?;
    let found = least_bound_by(alloc, &tables, claim, near)?;
    Ok(found)
}

/// The least bound, by the tables of the servers, looked for at `near`, and from there on in steps
/// that double or halve: at most a hundred.
fn least_bound_by(
    alloc: Global,
    tables: &[BestTable],
    claim: &Claim,
    near: u64,
) -> Result<Option<LeastCarried>, AllocError>
    requires tables { IsTabled (claim_data claim.now) tables.now }
    ensures { (samples : List TheSample) → AreTablesFor samples (claim_data claim.now) tables.now →
        FindsLeastBound samples (claim_data claim.now) result }
{
    let widest = try_bound(alloc, tables, claim, MAX_BOUND_NS)?;
    if widest.is_some() {
        return Ok(None);
    }
    let mut least = 0;
    let mut bound_ns = MAX_BOUND_NS;
    let mut tick = claim.first as u64;
    while least < bound_ns {
        let tried_ns = trial(least, bound_ns, near);
        match try_bound(alloc, tables, claim, tried_ns)? {
            None => bound_ns = tried_ns,
            Some(stop) => {
                least = tried_ns + 1;
                tick = stop;
            }
        }
    }
    Ok(Some(LeastCarried { bound_ns, tick }))
}

/// Takes the longest pieces with a bound of this many nanoseconds. If they don't reach the span's
/// end, the Unix tick at which they stop.
fn try_bound(
    alloc: Global,
    tables: &[BestTable],
    claim: &Claim,
    bound_ns: u64,
) -> Result<Option<u64>, AllocError>
    requires tables { IsTabled (claim_data claim.now) tables.now }
    requires in_range { bound_ns ≤ max_bound_ns }
    ensures { IfOk result (λ stop. (samples : List TheSample) →
        AreTablesFor samples (claim_data claim.now) tables.now →
        MatchOption stop (IsCarried samples (common.with_bound (claim_data claim.now) bound_ns))
        (λ tick. StopsAt samples (common.with_bound (claim_data claim.now) bound_ns) (pos tick))) }
{
    let claim = with_bound(alloc, claim, bound_ns)?;
    match longest_ends(alloc, tables, &claim)? {
        Reach::End(_) => Ok(None),
        Reach::Stuck { begin, .. } => Ok(Some(begin)),
        Reach::TooLong { begin } => Ok(Some(begin)),
    }
}

/// The number of the piece that holds a tick of the span, from 0, if the span is cut every `step_s`
/// seconds. The tick is one of Unix time, of 2^-32 s.
pub fn piece_holding(claim: &Claim, step_s: u32, tick: u64) -> u64
    requires step { IsStep step_s }
    requires from_first { claim.now.first ≤ℤ pos tick }
    requires to_last { pos tick ≤ℤ claim.now.last }
    ensures exact { result ≡ spec.piece_holding (claim_data claim.now) step_s (pos tick) }
{
    let step = u128::from(step_s) * TICKS_PER_SECOND;
    let distance = (i128::from(tick) - claim.first) as u128;
    (distance / step) as u64
}
