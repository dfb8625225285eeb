//! When a clock showed a reading: between two true times, at any time, or never.

ghost use Rattle.std.specs.Prelude.{◌≡◌, ◌<◌, ◌≤◌, ◌^◌, length, IfOk};
ghost use Rattle.true_time.specs.Common.{AreSamplesOf, data_of};
ghost use Rattle.true_time.specs.TrueTime.{reading_over};
ghost use Rattle.true_time.specs.When as spec;

use crate::hull::{hull_over, tables_for};
use crate::reading_line::{are_near, less};
use claim_file::Claim;
use intersection::kinds::Hull;
use sample_interval::SampleSource;
use std::alloc::{AllocError, Global};
use sweep::Places;

/// When a clock showed a reading. Times are in Unix ticks of 2^-32 s.
#[derive(Clone, Copy, Debug)]
pub enum When {
    /// No earlier than the first of these ticks, and no later than the last.
    Between {
        /// The earliest true time.
        earliest: i128,
        /// The latest true time.
        latest: i128,
    },
    /// Nothing says when.
    Whenever,
    /// Never: no course of events fits in which it was shown.
    Never,
}

/// When it was, by these ends of the hull.
fn when_near(begin: u64, end: u64, low: i128, high: i128) -> When
    ensures { result ≡
        spec.when_of (reading_over begin end) (Hull.Bounded low high) }
{
    if are_near(low, high) {
        When::Between {
            earliest: less(begin, high),
            latest: less(end, low),
        }
    } else {
        When::Whenever
    }
}

/// When a clock showed a reading that stands for these ticks, by the hull over them.
fn when_of(begin: u64, end: u64, hull: Hull) -> When
    ensures { result ≡ spec.when_of (reading_over begin end) hull }
{
    match hull {
        Hull::Bounded { lo, hi } => when_near(begin, end, lo, hi),
        Hull::Unbounded => When::Whenever,
        Hull::Empty => When::Never,
    }
}

/// When a clock showed a reading that stands for these ticks of 2^-32 s of the Unix epoch. They may
/// lie outside the span.
///
/// The samples are at most 1,000,000, and of the claim.
pub fn when_at<S: SampleSource>(
    alloc: Global,
    samples: S,
    claim: &Claim,
    begin: u64,
    end: u64,
) -> Result<When, AllocError>
    requires samples { AreSamplesOf (data_of claim.now) (S.samples samples) }
    requires few { length (S.samples samples) ≤ 1_000_000 }
    requires in_order { begin ≤ end }
    ensures { IfOk result (λ when. when ≡
        spec.when_at (S.samples samples) (data_of claim.now) (reading_over begin end)) }
{
    let tables = tables_for(alloc, samples, claim)?;
    let mut places = Places::default();
    let hull = hull_over(tables.as_slice(), &mut places, claim, begin, end);
    Ok(when_of(begin, end, hull))
}
