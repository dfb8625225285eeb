//! The hull of a list of intervals, by Marzullo's algorithm (RFC 5905, section 11.2.1): the ends
//! are sorted, and a walk along them counts the intervals that it has entered and not left.

ghost use Rattle.std.specs.Prelude.{◌≡◌, ◌<◌, ◌≤◌, ◌*◌, length};
ghost use Rattle.intersection.specs.Hull.{DescribesHull};
ghost use Rattle.intersection.specs.Marzullo.{first_reached};

use crate::ends::{End, Side, sorted_ends};
use crate::kinds::{Hull, Interval};
use arrayvec::ArrayVec;

/// The least range that holds every point that at most `f` intervals of the list leave out.
///
/// `f` may reach or pass the number of intervals: the hull is unbounded then.
pub fn hull(list: &ArrayVec<Interval, 32>, f: u8) -> Hull
    ensures { DescribesHull list.now.items f result }
{
    hull_walk(list, f).0
}

/// The hull, and the number of ends that were looked at to find it.
///
/// The ends of the intervals that have a point are put in order. A walk upward stops at the least
/// admissible point, and if there is one, a walk downward stops at the greatest.
pub fn hull_walk(list: &ArrayVec<Interval, 32>, f: u8) -> (Hull, u32)
    ensures described { DescribesHull list.now.items f result.0 }
    ensures looked { result.1 ≤ 4 * length list.now.items }
{
    let wrong = usize::from(f);
    if list.len() <= wrong {
        return (Hull::Unbounded, 0);
    }
    // The array of the ends is blanked first, which for a short list takes longer than the walks.
    if list.len() <= 16 {
        walk_both_ways::<32>(list.as_slice(), f)
    } else {
        walk_both_ways::<64>(list.as_slice(), f)
    }
}

/// The hull of more intervals than may be wrong, by an array with room for `ENDS` ends.
fn walk_both_ways<const ENDS: usize>(list: &[Interval], f: u8) -> (Hull, u32)
    requires room { 2 * length list.now ≤ ENDS }
    requires size { ENDS ≤ 64 }
    requires enough { f < length list.now }
    ensures described { DescribesHull list.now f result.0 }
    ensures looked { result.1 ≤ 4 * length list.now }
{
    let needed = list.len() - usize::from(f);
    let mut ends: ArrayVec<End, ENDS> = sorted_ends(list);
    let (least, looked_upward) = walk(ends.as_slice(), Side::Low, needed);
    let Some(lo) = least else {
        return (Hull::Empty, looked_upward);
    };
    ends.reverse();
    let (greatest, looked_downward) = walk(ends.as_slice(), Side::High, needed);
    match greatest {
        Some(hi) => (Hull::Bounded { lo, hi }, looked_upward + looked_downward),
        None => unreachable!(),
    }
}

/// Walks along the ends, and stops at the first at which `needed` more intervals were entered than
/// left.
///
/// An interval is entered at its end of the side `entrance`, and left at the other. The second
/// result is the number of ends that were looked at.
fn walk(ends: &[End], entrance: Side, needed: usize) -> (Option<i128>, u32)
    requires ends { length ends.now ≤ 64 }
    requires needed { needed ≤ 32 }
    ensures found { result.0 ≡ first_reached entrance needed 0 0 ends.now }
    ensures looked { result.1 ≤ length ends.now }
{
    let mut entered = 0;
    let mut left = 0;
    let mut looked = 0;
    for end in ends {
        looked += 1;
        if end.side == entrance {
            entered += 1;
            if entered >= left + needed {
                return (Some(end.at), looked);
            }
        } else {
            left += 1;
        }
    }
    (None, looked)
}
