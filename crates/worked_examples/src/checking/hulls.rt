//! The hulls of lists of intervals, by hand.

use crate::expectation::{assert_equal_at, table};
use Hull::{Bounded, Empty, Unbounded};
use arrayvec::ArrayVec;
use intersection::kinds::{Hull, Interval};
use intersection::{hull, hull_walk, meet};
use std::process::Abort;

fn list_of(rt: &impl Abort, intervals: &[(i128, i128)]) -> ArrayVec<Interval, 32> {
    let mut list = ArrayVec::new();
    for (lo, hi) in intervals {
        let interval = Interval { lo: *lo, hi: *hi };
        list.try_push(interval)
            .expect(rt, "a list of at most 32 intervals");
    }
    list
}

const MIN: i128 = i128::MIN;

const MAX: i128 = i128::MAX;

/// Intervals, how many of them may be wrong, and their hull.
const HULLS: [(&[(i128, i128)], u8, Hull); 2] = table! {
    &[(0, 5), (6, 9), (6, 7)], 255, Unbounded;
    &[(MIN, MAX), (MAX, MAX)], 1, Bounded { lo: MIN, hi: MAX };
};

#[test]
fn hulls(rt: HostRuntime) {
    for (intervals, f, wanted) in HULLS {
        let found = hull(&list_of(&rt, intervals), f);
        assert_equal_at(&rt, found, wanted, (intervals, f));
    }
}

/// The same, and how many ends are looked at.
const WALKS: [(&[(i128, i128)], u8, Hull, u32); 5] = table! {
    &[(0, 5), (4, 10), (20, 30)], 1, Bounded { lo: 4, hi: 5 }, 6;
    &[(0, 5), (4, 10), (20, 30)], 0, Empty, 6;
    &[(0, 1), (10, 11)], 1, Bounded { lo: 0, hi: 11 }, 2;
    &[(0, 1), (10, 11)], 2, Unbounded, 0;
    &[(5, 4)], 0, Empty, 0;
};

#[test]
fn walks(rt: HostRuntime) {
    for (intervals, f, wanted, looked) in WALKS {
        let walked = hull_walk(&list_of(&rt, intervals), f);
        assert_equal_at(&rt, walked, (wanted, looked), (intervals, f));
    }
}

#[test]
fn meets(rt: HostRuntime) {
    for ((lo, hi), met) in [((4, 10), (4, 5)), ((6, 9), (6, 5))] {
        let both = meet(Interval { lo: 0, hi: 5 }, Interval { lo, hi });
        assert_equal_at(&rt, (both.lo, both.hi), met, (lo, hi));
    }
}
