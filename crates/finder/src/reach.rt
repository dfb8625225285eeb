//! How far the longest pieces reach.

ghost use Rattle.std.specs.Prelude.{◌≤◌, length, IfOk, List};
ghost use Rattle.finder.specs.Common.{data_of, Sample};
ghost use Rattle.finder.specs.Reach.{AreTablesFor, IsReach, IsTabled};

use crate::longest::{Pace, longest_piece, tick_after};
use certificate::MAX_PIECES;
use claim_file::Claim;
use intersection::kinds::Hull;
use std::alloc::{AllocError, Global};
use sweep::BestTable;

/// How far the longest pieces of a span reach, one after another.
#[derive(Drop)]
pub(crate) enum Reach {
    /// To the span's end. These are the ends of the pieces.
    End(Vec<i128>),
    /// To a tick after which the error isn't shown to be within the bound: the piece of one tick,
    /// and its hull.
    Stuck { begin: u64, end: u64, hull: Hull },
    /// To this tick before the span's end, by as many as a certificate may have.
    TooLong { begin: u64 },
}

/// Takes one longest piece after another, by the tables of the servers.
pub(crate) fn longest_ends(
    alloc: Global,
    tables: &[BestTable],
    claim: &Claim,
) -> Result<Reach, AllocError>
    requires tables { IsTabled (data_of claim.now) tables.now }
    ensures { IfOk result (λ reach. (samples : List Sample) →
        AreTablesFor samples (data_of claim.now) tables.now →
        IsReach samples (data_of claim.now) reach) }
{
    let last = claim.last as u64;
    let mut begin = claim.first as u64;
    let mut pace = Pace::new();
    let mut ends: Vec<i128> = Vec::new(alloc);
    while ends.len() < MAX_PIECES {
        match longest_piece(tables, &mut pace, claim, begin) {
            Err(hull) => {
                let end = tick_after(begin, last);
                return Ok(Reach::Stuck { begin, end, hull });
            }
            Ok(end) => begin = end,
        }
        ends.push(i128::from(begin))?;
        if begin == last {
            return Ok(Reach::End(ends));
        }
    }
    Ok(Reach::TooLong { begin })
}
