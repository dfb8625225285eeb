//! Windows, timestamps and nanoseconds in ticks, by hand.

use crate::expectation::{assert_equal_at, table};
use era_unfold::{ERA, Unit, high, low, ns_down, ns_up, unfold};

#[test]
fn windows_of_microseconds(rt: HostRuntime) {
    for (sec, sub, first, last) in table! {
        0, 0, 0, 4295;
        0, 999_999, 4_294_963_001, 4_294_967_296;
        u32::MAX, 999_999, ERA - 4295, ERA;
    } {
        let window = (low(sec, sub, Unit::Micro), high(sec, sub, Unit::Micro));
        assert_equal_at(&rt, window, (first, last), (sec, sub));
    }
}

#[test]
fn windows_of_nanoseconds(rt: HostRuntime) {
    for (sec, sub, first, last) in table! {
        0, 1, 4, 9;
        0, 999_999_999, 4_294_967_291, 4_294_967_296;
        u32::MAX, 999_999_999, ERA - 5, ERA;
    } {
        let window = (low(sec, sub, Unit::Nano), high(sec, sub, Unit::Nano));
        assert_equal_at(&rt, window, (first, last), (sec, sub));
    }
}

#[test]
fn nanoseconds_are_rounded(rt: HostRuntime) {
    for (n, down, up) in table! {
        0, 0, 0;
        1, 4, 5;
        10_001_000, 42_953_967, 42_953_968;
        1_000_000_000, 4_294_967_296, 4_294_967_296;
        u64::MAX, 79_228_162_514_264_337_589, 79_228_162_514_264_337_590;
    } {
        assert_equal_at(&rt, (ns_down(n), ns_up(n)), (down, up), n);
    }
}

#[test]
fn stamps_unfold_to_the_nearest_era(rt: HostRuntime) {
    let epoch = 0x83aa_7e80_0000_0000;
    for (stamp, near, tick) in table! {
        epoch, 0, 0;
        // Half an era away: the tick before `near` counts, the one after it doesn't.
        epoch, 1 << 63, 0;
        epoch, (1 << 63) + 1, ERA;
        epoch, ERA, ERA;
        // The second tick of era 1, near the last second of era 0.
        1, 2_085_978_495 << 32, (2_085_978_496 << 32) + 1;
        // Before 1970.
        epoch - 1, 0, -1;
    } {
        assert_equal_at(&rt, unfold(stamp, near), tick, (stamp, near));
    }
}
