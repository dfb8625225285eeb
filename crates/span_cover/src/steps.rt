//! The ends of pieces of equal length.

ghost use Rattle.std.specs.Prelude.{◌≡◌, ◌+◌, ◌*◌, ◌^◌, ◌≤◌, pos, ◌≤ℤ◌, ◌<ℤ◌, unsigned_abs};
ghost use Rattle.era_unfold.specs.Window.{ticks_per_second};
ghost use Rattle.span_cover.specs.Step.{piece_end_of};

use era_unfold::TICKS_PER_SECOND;

/// The end of piece `k`, counted from 0, of a span that is cut every `step_s` seconds: the lesser
/// of `first + (k + 1) * step_s * 2^32` and `last`, in Unix ticks from 0 to below 2^64.
pub fn piece_end(first: i128, last: i128, step_s: u32, k: u32) -> i128
    requires from_zero { pos 0 ≤ℤ first }
    requires in_order { first ≤ℤ last }
    requires in_range { last <ℤ pos (2 ^ 64) }
    ensures { result ≡ piece_end_of first last step_s k }
{
    (first + ticks(step_s, k)).min(last)
}

/// How far piece `k` ends after the first tick.
fn ticks(step_s: u32, k: u32) -> i128
    ensures value { result ≡ pos ((k + 1) * step_s * ticks_per_second) }
    ensures in_range { unsigned_abs result ≤ 2 ^ 100 }
{
    ((u128::from(k) + 1) * u128::from(step_s) * TICKS_PER_SECOND) as i128
}
