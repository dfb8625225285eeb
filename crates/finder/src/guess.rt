//! Which bound is likely the least one.
//!
//! Nothing rests on a guess but the time: every bound is tried before it is believed. Bounds are
//! halved as if each were tried, but most pieces aren't looked at: where one is as long as the
//! next, many are passed at once.

ghost use Rattle.std.specs.Prelude.{◌≤◌, IfOk};
ghost use Rattle.claim_file.specs.Claim.{data_of as claim_data, max_bound_ns};
ghost use Rattle.finder.specs.Reach.{IsTabled};

use crate::longest::{Pace, is_as_long, longest_piece};
use crate::trial::trial;
use certificate::MAX_PIECES;
use claim_file::{Claim, MAX_BOUND_NS, with_bound};
use std::alloc::{AllocError, Global};
use sweep::BestTable;

/// The bound in nanoseconds that is likely the least one, if it's no less than `start`: that one if
/// it is likely enough; else the bound that halving from the greatest one ends at, and then what
/// a closer look finds from there on.
pub(crate) fn likely_least(
    alloc: Global,
    tables: &[BestTable],
    claim: &Claim,
    start: u64,
) -> Result<u64, AllocError>
    requires tables { IsTabled (claim_data claim.now) tables.now }
    requires in_range { start ≤ max_bound_ns }
    ensures from_start { IfOk result (λ bound_ns. start ≤ bound_ns) }
    ensures lawful { IfOk result (λ bound_ns. bound_ns ≤ max_bound_ns) }
{
    if is_likely_enough(alloc, tables, claim, start, false)? {
        return Ok(start);
    }
    let likely = least_from(alloc, tables, claim, start, MAX_BOUND_NS, false)?;
    least_from(alloc, tables, claim, start, likely, true)
}

/// The least bound from `start` on that is likely enough, in nanoseconds, looked for at `near`; the
/// greatest that a claim may have if none is. At most as many bounds are tried as it takes to
/// double a number of 50 bits and to halve it.
fn least_from(
    alloc: Global,
    tables: &[BestTable],
    claim: &Claim,
    start: u64,
    near: u64,
    is_near: bool,
) -> Result<u64, AllocError>
    requires tables { IsTabled (claim_data claim.now) tables.now }
    requires in_range { start ≤ max_bound_ns }
    ensures from_start { IfOk result (λ bound_ns. start ≤ bound_ns) }
    ensures lawful { IfOk result (λ bound_ns. bound_ns ≤ max_bound_ns) }
{
    let mut low = start;
    let mut high = MAX_BOUND_NS;
    while low < high {
        let bound_ns = trial(low, high, near);
        if is_likely_enough(alloc, tables, claim, bound_ns, is_near)? {
            high = bound_ns;
        } else {
            low = bound_ns + 1;
        }
    }
    Ok(high)
}

/// Whether a certificate is likely found with a bound of this many nanoseconds.
fn is_likely_enough(
    alloc: Global,
    tables: &[BestTable],
    claim: &Claim,
    bound_ns: u64,
    is_near: bool,
) -> Result<bool, AllocError>
    requires tables { IsTabled (claim_data claim.now) tables.now }
    requires in_range { bound_ns ≤ max_bound_ns }
{
    let claim = with_bound(alloc, claim, bound_ns)?;
    Ok(is_likely_carried(tables, &claim, is_near))
}

/// Whether as many pieces as a certificate may have likely reach the span's end. After pieces of
/// one length as many as have been skipped before and as many again are taken to have it too, if
/// the piece behind them has; but if the bound `is_near` the least one, only after many.
fn is_likely_carried(tables: &[BestTable], claim: &Claim, is_near: bool) -> bool
    requires tables { IsTabled (claim_data claim.now) tables.now }
{
    let before = if is_near { 16 } else { 1 };
    let last = claim.last as u64;
    let mut begin = claim.first as u64;
    let mut pace = Pace::new();
    let most = MAX_PIECES as u64;
    let mut pieces = 0u64;
    let mut leap = 1u64;
    while pieces < most {
        match longest_piece(tables, &mut pace, claim, begin) {
            Err(_) => return false,
            Ok(end) => begin = end,
        }
        pieces += 1;
        if begin == last {
            return true;
        }
        if let Some(length) = pace.steady(before) {
            let ahead = begin.saturating_add(length.saturating_mul(leap));
            if is_as_long(tables, &mut pace, claim, ahead, length) {
                begin = ahead;
                pieces = pieces.saturating_add(leap);
                leap = leap.saturating_mul(2);
            } else {
                leap = (leap / 2).max(1);
            }
        }
    }
    false
}
