//! Where look-ups in the tables ended, and where the next one goes.

ghost use Rattle.std.specs.Prelude.{◌<◌, ◌≤◌};

/// Where the last look-ups ended in the maxima of one kind of end.
#[derive(Clone, Copy, Default, PartialEq, Eq)]
pub struct Near {
    pub early: usize,
    pub late: usize,
    /// Whether the late maxima reach the higher level.
    pub is_late: bool,
    /// The level that was found, counted from the origin.
    pub level: u128,
}

/// Where the last look-ups ended in a table.
#[derive(Clone, Copy, Default, PartialEq, Eq)]
pub struct NearTable {
    pub lows: Near,
    pub highs: Near,
}

/// Where the last look-ups ended in each table; at first, where each list begins. Pieces that are
/// asked for one after another mostly lie near each other, and then the next look-up takes a few
/// steps from there on.
#[derive(Clone, Copy, Default)]
pub struct Places {
    pub near: [NearTable; 32],
}

/// The index to try next of those from `low` to below `high`: `near` first, then what lies beside
/// it, and then twice as far each time, but no further than halfway. So it takes at most twice as
/// many turns as a search that halves.
pub fn trial(low: usize, high: usize, near: usize) -> usize
    requires { low < high }
    ensures from_low { low ≤ result }
    ensures below_high { result < high }
{
    let half = (high - low) / 2;
    if near < low {
        low + (low - near - 1).min(half)
    } else if near < high {
        near
    } else {
        high - 1 - (near - high).min(half)
    }
}
