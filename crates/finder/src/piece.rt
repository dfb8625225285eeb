//! The pieces of a span.

ghost use Rattle.std.specs.Prelude.{◌≡◌, ◌<◌, ◌≤◌, ◌^◌, pos, ◌≤ℤ◌, ◌<ℤ◌, IfOk};
ghost use Rattle.claim_file.specs.Claim.{data_of};
ghost use Rattle.finder.specs.Piece.{count_of, ends_of, stretch_at};

use claim_file::Claim;
use era_unfold::TICKS_PER_SECOND;
use span_cover::{Stretch, piece_end};
use std::alloc::{AllocError, Global};

/// How many pieces the span has that is cut every `step_s` seconds: the last is the first that ends
/// with the span.
#[tactic(auto, using(crate::proofs::SpanPieces::counting))]
pub(crate) fn piece_count(claim: &Claim, step_s: u32) -> u64
    requires step { 0 < step_s }
    ensures { result ≡ count_of (data_of claim.now) step_s }
{
    let step = u128::from(step_s) * TICKS_PER_SECOND;
    let length = (claim.last - claim.first) as u128;
    length.div_ceil(step).max(1) as u64
}

/// The ends of the first `count` pieces of the span from `first` to `last`, which are Unix ticks,
/// from 0 to below 2^64.
#[tactic(auto, using(std::proofs::lemmas::Int::ints))]
pub(crate) fn piece_ends(
    alloc: Global,
    first: i128,
    last: i128,
    step_s: u32,
    count: u32,
) -> Result<Vec<i128>, AllocError>
    requires from_zero { pos 0 ≤ℤ first }
    requires in_order { first ≤ℤ last }
    requires in_range { last <ℤ pos (2 ^ 64) }
    ensures { IfOk result (λ ends. ends.items ≡ ends_of first last step_s count) }
{
    let mut ends = Vec::with_capacity(alloc, count as usize)?;
    for number in 0..count {
        ends.push(piece_end(first, last, step_s, number))?;
    }
    Ok(ends)
}

/// The readings of the piece of this number. Each piece begins where the one before it ends.
pub(crate) fn stretch_at(claim: &Claim, step_s: u32, number: u32) -> Stretch
    ensures { result ≡ stretch_at (data_of claim.now) step_s number }
{
    let begin = if number == 0 {
        claim.first
    } else {
        piece_end(claim.first, claim.last, step_s, number - 1)
    };
    let end = piece_end(claim.first, claim.last, step_s, number);
    Stretch { begin, end }
}
