//! How long a piece likely may be.
//!
//! Nothing rests on it but the time: the length is confirmed by hulls.

ghost use Rattle.claim_file.specs.Claim.{data_of};
ghost use Rattle.finder.specs.Reach.{IsTabled};

use arrayvec::ArrayVec;
use claim_file::Claim;
use sweep::{BestTable, Duration, Places, durations_near};

/// For how many ticks from `begin` a piece likely shows that the error is within the bound, if its
/// first tick does, over which the last look-up with these places went.
///
/// Where the intervals of all groups meet, the hull's low end is the one with as many above it as
/// may be false. So the piece ends when one group more than these has fallen below the bound; or
/// risen above it. A group that lies beyond the bound at first is one that may be false.
pub(crate) fn likely_length(
    tables: &[BestTable],
    places: &mut Places,
    claim: &Claim,
    begin: u64,
) -> u64
    requires tables { IsTabled (data_of claim.now) tables.now }
{
    let bound = u64::try_from(claim.bound).unwrap_or(u64::MAX);
    let durations = durations_near(tables, places, begin, bound, claim.drift_ppb);
    let mut lows: ArrayVec<u64, 32> = ArrayVec::new();
    let mut highs: ArrayVec<u64, 32> = ArrayVec::new();
    let mut false_left = usize::from(claim.false_max);
    for group in 0..32 {
        match group_duration(durations.as_slice(), claim, group) {
            Some(duration) if duration.is_beyond => false_left = false_left.saturating_sub(1),
            Some(duration) => {
                lows.push(duration.low);
                highs.push(duration.high);
            }
            None => {}
        }
    }
    nth_greatest(lows, false_left).min(nth_greatest(highs, false_left))
}

/// For how long the ends of a group's interval likely stay within the bound, if one of its servers
/// has a sample. Its interval is what those of its servers have in common.
fn group_duration(durations: &[Duration], claim: &Claim, group: u8) -> Option<Duration> {
    let mut common: Option<Duration> = None;
    for duration in durations {
        let its_group = claim
            .groups
            .as_slice()
            .get(usize::from(duration.server))
            .copied();
        if its_group == Some(group) {
            common = Some(match common {
                Some(common) => Duration {
                    server: duration.server,
                    low: common.low.max(duration.low),
                    high: common.high.max(duration.high),
                    is_beyond: common.is_beyond || duration.is_beyond,
                },
                None => *duration,
            });
        }
    }
    common
}

/// The number that has just so many greater ones in the list, 0 if there is none.
fn nth_greatest(mut numbers: ArrayVec<u64, 32>, greater: usize) -> u64 {
    numbers.sort_unstable();
    let place = numbers.len().checked_sub(greater.saturating_add(1));
    match place {
        Some(place) => numbers[place],
        None => 0,
    }
}
