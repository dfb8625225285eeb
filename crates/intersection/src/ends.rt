//! The ends of intervals, in order.

ghost use Rattle.std.specs.Prelude.{◌≡◌, ◌≤◌, ◌*◌, int_le, length, IsPermutation};
ghost use Rattle.intersection.specs.Ends.{ends_of, IsInOrder};

use crate::kinds::Interval;
use arrayvec::ArrayVec;

/// Which end of an interval it is. At one point low ends come first, since a closed interval holds
/// both its ends.
#[derive(Clone, Copy, Debug, Default, PartialEq, Eq, PartialOrd, Ord)]
pub enum Side {
    /// The end that bounds the interval from below.
    #[default]
    Low,
    /// The end that bounds it from above.
    High,
}

/// An end of an interval.
#[derive(Clone, Copy, Debug, Default, PartialEq, Eq, PartialOrd, Ord)]
pub struct End {
    pub at: i128,
    pub side: Side,
}

/// The ends of the intervals that have a point, in order, in an array with room for `ENDS` of them.
pub fn sorted_ends<const ENDS: usize>(list: &[Interval]) -> ArrayVec<End, ENDS>
    requires { 2 * length list.now ≤ ENDS }
    ensures ends { IsPermutation (ends_of list.now) result.items }
    ensures order { IsInOrder result.items }
    ensures fits { length result.items ≤ 2 * length list.now }
{
    // The low ends come first, since most of them stand below the high ones in the end.
    let mut ends = ArrayVec::new();
    for interval in list {
        if has_a_point(interval) {
            ends.push(End {
                at: interval.lo,
                side: Side::Low,
            });
        }
    }
    for interval in list {
        if has_a_point(interval) {
            ends.push(End {
                at: interval.hi,
                side: Side::High,
            });
        }
    }
    ends.sort_unstable();
    ends
}

/// Whether some point lies in the interval.
fn has_a_point(interval: &Interval) -> bool
    ensures { result ≡ int_le interval.now.lo interval.now.hi }
{
    interval.lo <= interval.hi
}
