//! Two intervals narrowed to one.

ghost use Rattle.std.specs.Prelude.{◌≡◌, ℤ, ◌⊎◌, ◌↔◌};
ghost use Rattle.std.specs.Int.{int_max, int_min};
ghost use Rattle.intersection.specs.Interval.{LeavesOut};

use crate::kinds::Interval;

/// The points that both intervals have: from the greatest low end to the least high end.
///
/// If they have none in common, `lo` is above `hi` in the result.
pub fn meet(a: Interval, b: Interval) -> Interval
    ensures lo { result.lo ≡ int_max a.lo b.lo }
    ensures hi { result.hi ≡ int_min a.hi b.hi }
    ensures common { (point : ℤ) → LeavesOut result point
        ↔ (LeavesOut a point ⊎ LeavesOut b point) }
{
    Interval {
        lo: a.lo.max(b.lo),
        hi: a.hi.min(b.hi),
    }
}
