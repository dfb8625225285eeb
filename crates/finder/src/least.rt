//! The least bound of hulls.

ghost use Rattle.std.specs.Prelude.{◌≡◌, ◌*◌, ◌^◌, ◌<◌, ◌≤◌};
ghost use Rattle.finder.specs.Envelope.{nanoseconds_of, reach_of, with_piece, IsBelowLimit};

use era_unfold::{NANOSECONDS_PER_SECOND, TICKS_PER_SECOND};
use intersection::kinds::Hull;

/// The least bound that holds over pieces of a span.
#[derive(Clone, Copy, Debug, PartialEq, Eq)]
pub enum LeastBound {
    /// Every hull lies inside this bound, and inside no lesser one.
    Holds {
        /// The bound in nanoseconds, which may be more than a claim can say: below 2^127.
        bound_ns: u128,
        /// The number of the first piece that needs it, from 0.
        piece: u32,
    },
    /// No bound holds: a hull has no ends, or nothing lies in it.
    NoneHolds {
        /// The number of the first piece with such a hull, from 0.
        piece: u32,
    },
}

impl LeastBound {
    /// The least bound of these pieces and of one more, which has this number and hull.
    pub(crate) fn with_piece(self, number: u32, hull: Hull) -> LeastBound
        requires { IsBelowLimit self }
        ensures value { result ≡ with_piece self number hull }
        ensures in_range { IsBelowLimit result }
    {
        match (self, hull) {
            (LeastBound::NoneHolds { piece }, _) => LeastBound::NoneHolds { piece },
            (LeastBound::Holds { .. }, Hull::Unbounded | Hull::Empty) => {
                LeastBound::NoneHolds { piece: number }
            }
            (LeastBound::Holds { bound_ns, piece }, Hull::Bounded { lo, hi }) => {
                let needed = nanoseconds_of(reach_of(lo, hi));
                if bound_ns < needed {
                    LeastBound::Holds {
                        bound_ns: needed,
                        piece: number,
                    }
                } else {
                    LeastBound::Holds { bound_ns, piece }
                }
            }
        }
    }
}

/// How many ticks the hull from `lo` to `hi` reaches to either side of zero.
pub(crate) fn reach_of(lo: i128, hi: i128) -> u128
    ensures value { result ≡ reach_of lo hi }
    ensures in_range { result ≤ 2 ^ 127 }
{
    let below = lo.min(0).unsigned_abs();
    let above = hi.max(0).unsigned_abs();
    below.max(above)
}

/// The least number of nanoseconds that has no fewer ticks, even if they are rounded down.
///
/// Whole seconds are counted apart, so that no product is out of range.
#[tactic(auto, using(crate::proofs::Bound::sum_is_ceiling))]
pub(crate) fn nanoseconds_of(ticks: u128) -> u128
    requires { ticks ≤ 2 ^ 127 }
    ensures value { result ≡ nanoseconds_of ticks }
    ensures in_range { result < 2 ^ 127 }
{
    let per_second = u128::from(NANOSECONDS_PER_SECOND);
    let seconds = ticks / TICKS_PER_SECOND;
    let rest = ticks % TICKS_PER_SECOND;
    seconds * per_second + (rest * per_second).div_ceil(TICKS_PER_SECOND)
}
