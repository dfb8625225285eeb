//! The hull over groups of servers.

ghost use Rattle.std.specs.Prelude.{◌≡◌, ◌<◌, ◌≤◌, pos, ◌≤ℤ◌, length, slice_get, All, IsTrue};
ghost use Rattle.std.specs.Option.{option_map};
ghost use Rattle.span_cover.specs.Group.{group_interval, piece_hull, is_inside, AreTheirOwn};

use crate::part::Part;
use arrayvec::ArrayVec;
use intersection::kinds::{Hull, Interval};
use intersection::{hull, meet};

/// The hull over the groups of servers that say something, if up to `false_max` groups may be
/// false.
///
/// `groups` has the number of each server's group, from 0, for at most 32 servers.
pub fn piece_hull(parts: &[Part], groups: &[u8], false_max: u8) -> Hull
    requires groups { length groups.now ≤ 32 }
    requires listed { All (λ part. part.server < length groups.now) parts.now }
    ensures { result ≡ piece_hull groups.now false_max parts.now }
{
    let own = are_their_own(parts, groups);
    let mut intervals: ArrayVec<Interval, 32> = ArrayVec::new();
    for group in 0..groups.len() {
        if let Some(interval) = group_interval(parts, groups, group, own) {
            intervals.push(interval);
        }
    }
    hull(&intervals, false_max)
}

/// Whether each part is of the group that has its place's number.
fn are_their_own(parts: &[Part], groups: &[u8]) -> bool
    requires { All (λ part. part.server < length groups.now) parts.now }
    ensures { IsTrue result → AreTheirOwn groups.now parts.now }
{
    for (place, part) in parts.iter().enumerate() {
        if usize::from(groups[usize::from(part.server)]) != place {
            return false;
        }
    }
    true
}

/// The interval of the part at a place, if there is one.
fn interval_at(parts: &[Part], place: usize) -> Option<Interval>
    ensures { result ≡ option_map (λ part. part.interval) (slice_get parts.now place) }
{
    if place < parts.len() {
        Some(parts[place].interval)
    } else {
        None
    }
}

/// The interval of a group, if one of its servers says something.
fn group_interval(parts: &[Part], groups: &[u8], group: usize, own: bool) -> Option<Interval>
    requires listed { All (λ part. part.server < length groups.now) parts.now }
    requires own { IsTrue own → AreTheirOwn groups.now parts.now }
    ensures { result ≡ group_interval groups.now parts.now group }
{
    // Mostly each server is a group of its own, and says something.
    if own {
        return interval_at(parts, group);
    }
    let mut common: Option<Interval> = None;
    for part in parts {
        if usize::from(groups[usize::from(part.server)]) == group {
            common = Some(match common {
                Some(common) => meet(common, part.interval),
                None => part.interval,
            });
        }
    }
    common
}

/// Whether a hull shows that the error is no more than the bound to either side.
pub fn is_inside(bound: i128, hull: Hull) -> bool
    requires { pos 0 ≤ℤ bound }
    ensures { result ≡ is_inside bound hull }
{
    match hull {
        Hull::Bounded { lo, hi } => -bound <= lo && hi <= bound,
        Hull::Unbounded | Hull::Empty => false,
    }
}
