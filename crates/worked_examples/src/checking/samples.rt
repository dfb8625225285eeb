//! Samples, offsets, delays and widenings, by hand.

ghost use Rattle.sample_interval.specs.Exchange.{IsOfSomeClaim};

use crate::checking::pieces::twenty_milliseconds;
use crate::expectation::{assert_equal, assert_equal_at};
use pairing::Exchange;
use sample_interval::kinds::Sample;
use sample_interval::{delay, offset, sample, widen};
use vectors::TICK;

/// A request at the second, in microseconds, its reply 20 ms later, and both timestamps half way.
pub(crate) fn exchange() -> Exchange
    ensures { IsOfSomeClaim result }
{
    Exchange {
        server: 0,
        request: 0,
        reply: 1,
        t1_low: TICK,
        t1_high: TICK + 4295,
        t4_low: TICK + 85_899_345,
        t4_high: TICK + 85_903_641,
        t2: TICK + 42_949_673,
        t3: TICK + 42_949_673,
        distance: 1,
        leap: 0,
        stratum: 1,
        reference: [0x47, 0x50, 0x53, 0],
    }
}

#[test]
fn widenings_round_up(rt: HostRuntime) {
    for (rate, distance, widened) in [
        (20_000, 274_877_906_944, 5_497_669),
        (0, 274_877_906_944, 0),
        (500_000_000, 1, 1),
        (1, 1, 1),
        (500_000_000, 7, 7),
    ] {
        assert_equal_at(&rt, widen(rate, distance), widened, (distance, rate));
    }
}

#[test]
fn exact_readings(rt: HostRuntime) {
    let x = exchange();
    assert_equal(&rt, offset(&x, 0), (-4295, 1));
    assert_equal(&rt, delay(&x, 0), (85_895_050, 85_903_641));
    assert_equal(&rt, sample(&x, 0), twenty_milliseconds());
}

#[test]
fn readings_within_a_microsecond(rt: HostRuntime) {
    let expected = Sample {
        server: 0,
        low: -42_953_969,
        low_from: TICK - 4295,
        low_to: TICK + 8590,
        high: 42_958_264,
        high_from: TICK + 85_895_050,
        high_to: TICK + 85_907_936,
    };
    assert_equal(&rt, sample(&exchange(), 4295), expected);
}
