//! Whether low marks and high marks are all compatible.

ghost use Rattle.std.specs.Prelude.{◌↔◌, IsTrue, IsPermutation, All};
ghost use Rattle.sample_interval.specs.Widening.{IsRate};
ghost use Rattle.error_marks.specs.Compatible.{AllCompatible};
ghost use Rattle.error_marks.specs.Direction.{IsInOrder};
ghost use Rattle.error_marks.specs.Range.{IsWithinRange};

use crate::direction::Direction;
use crate::mark::Mark;
use crate::sweep::keep_below;

/// Puts marks in the order of their places. It takes no memory.
pub fn sort_marks(marks: &mut [Mark])
    requires { All IsWithinRange marks.old }
    ensures permutation { IsPermutation marks.old marks.new }
    ensures order { IsInOrder marks.new }
{
    marks.sort_unstable_by_key(|mark| mark.place);
}

/// Whether each low mark is compatible with each high mark, if both lists are in the order of
/// places.
///
/// It takes no memory, and goes through both lists twice. The rate is up to 500,000,000 parts in
/// 10^9 of true time, and each number of ticks lies from -2^73 to 2^73.
pub fn all_compatible_in_order(drift_ppb: u32, lows: &[Mark], highs: &[Mark]) -> bool
    requires rate { IsRate drift_ppb }
    requires lows { All IsWithinRange lows.now }
    requires highs { All IsWithinRange highs.now }
    requires lows_in_order { IsInOrder lows.now }
    requires highs_in_order { IsInOrder highs.now }
    ensures { IsTrue result ↔ AllCompatible drift_ppb lows.now highs.now }
{
    keep_below(Direction::Falling, drift_ppb, lows, highs)
        && keep_below(Direction::Rising, drift_ppb, highs, lows)
}

/// Whether each low mark is compatible with each high mark.
///
/// It takes no memory: both lists are sorted where they stand, and then gone through twice. The
/// rate is up to 500,000,000 parts in 10^9 of true time, and each number of ticks lies from -2^73
/// to 2^73.
pub fn all_compatible(drift_ppb: u32, lows: &mut [Mark], highs: &mut [Mark]) -> bool
    requires rate { IsRate drift_ppb }
    requires lows { All IsWithinRange lows.old }
    requires highs { All IsWithinRange highs.old }
    ensures exact { IsTrue result ↔ AllCompatible drift_ppb lows.old highs.old }
    ensures lows_moved { IsPermutation lows.old lows.new }
    ensures highs_moved { IsPermutation highs.old highs.new }
{
    sort_marks(lows);
    sort_marks(highs);
    all_compatible_in_order(drift_ppb, lows, highs)
}
