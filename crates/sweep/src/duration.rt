//! For how long the ends of a server's interval stay within a bound, as a piece grows.
//!
//! An end that is moved back from a later sample stays where it is, and so stays until the piece
//! reaches the last sample that holds it. From there on the highest of the samples up to that one
//! falls as the piece grows, and no sample after it is high enough. So two searches say how long
//! the piece may grow. Nothing rests on it but the time: whoever asks confirms it by a hull.

ghost use Rattle.std.specs.Prelude.{◌≡◌, ◌≤◌, ◌^◌, length};
ghost use Rattle.sample_interval.specs.Widening.{IsRate};

use crate::places::{Near, Places, trial};
use crate::prefix_maximum::{PrefixMaximum, count_upto};
use crate::table::{BestTable, Maxima};
use crate::tick::{from_origin, mirrored_tick};
use arrayvec::ArrayVec;
use sample_interval::PARTS;

/// Twice as many ticks as the mirror's place has: where two mirrored ticks add up to.
const TWICE_MIRRORED: u128 = 1 << 77;

/// For how long a server's ends likely stay within a bound.
#[derive(Clone, Copy, Default)]
pub struct Duration {
    pub server: u8,
    /// For how many ticks from a piece's begin the low end is likely no less than the bound below
    /// zero.
    pub low: u64,
    /// For how many ticks the high end is likely no more than the bound.
    pub high: u64,
    /// Whether one of them lies beyond the bound on the other side, by the last look-up.
    pub is_beyond: bool,
}

/// The duration of each server that has a table, in their order, for pieces from `begin` on. The
/// last piece that was asked for with these places is the tick from there.
pub fn durations_near(
    tables: &[BestTable],
    places: &mut Places,
    begin: u64,
    bound: u64,
    drift_ppb: u32,
) -> ArrayVec<Duration, 32>
    requires few { length tables.now ≤ 32 }
    requires rate { IsRate drift_ppb }
    ensures { length result.items ≡ length tables.now }
{
    let mut durations = ArrayVec::new();
    let first = from_origin(i128::from(begin));
    let least = from_origin(-i128::from(bound));
    let most = from_origin(i128::from(bound));
    for (index, table) in tables.iter().enumerate() {
        let near = &mut places.near[index];
        let is_beyond = most < near.lows.level.max(near.highs.level);
        durations.push(Duration {
            server: table.server,
            low: duration_of(&table.lows, &mut near.lows, first, least, drift_ppb),
            high: duration_of(&table.highs, &mut near.highs, first, least, drift_ppb),
            is_beyond,
        });
    }
    durations
}

/// For how many ticks from `begin` on some extreme likely reaches a level.
fn duration_of(maxima: &Maxima, near: &mut Near, begin: u128, level: u128, drift_ppb: u32) -> u64
    requires begin { begin ≤ 2 ^ 76 }
    requires level { level ≤ 2 ^ 76 }
    requires rate { IsRate drift_ppb }
{
    let rate = u128::from(drift_ppb);
    let needed = (PARTS - rate) * level;
    let late = count_below(
        maxima.late.as_slice(),
        needed + rate * mirrored_tick(begin),
        near.late,
    );
    near.late = late;
    let place = match maxima.late.as_slice().get(late) {
        Some(maximum) => TWICE_MIRRORED.saturating_sub(maximum.place),
        None => 0,
    };
    let early = count_upto(maxima.early.as_slice(), place.max(2 * begin), near.early);
    near.early = early;
    if early == 0 {
        return 0;
    }
    let height = maxima.early[early - 1].height;
    let room = height.saturating_sub(needed + rate * begin);
    u64::try_from(room)
        .unwrap_or(u64::MAX)
        .checked_div(u64::from(drift_ppb))
        .unwrap_or(u64::MAX)
}

/// How many of the maxima are lower than a height, looked for from `near` on.
fn count_below(maxima: &[PrefixMaximum], height: u128, near: usize) -> usize {
    let mut low = 0;
    let mut high = maxima.len();
    while low < high {
        let middle = trial(low, high, near);
        if maxima[middle].height < height {
            low = middle + 1;
        } else {
            high = middle;
        }
    }
    low
}
