//! The best samples of a piece, by hand.

ghost use Rattle.std.specs.Prelude.{◌≡◌, ◌<◌, ◌≤◌, ◌^◌, unsigned_abs};
ghost use Rattle.sample_interval.specs.Sample.{IsLawfulSample};

use crate::expectation::assert_equal;
use sample_interval::kinds::Sample;
use span_cover::best;
use vectors::TICK;

/// The sample of an exchange of 20 ms at the second, in microseconds.
pub(crate) fn twenty_milliseconds() -> Sample
    ensures lawful { IsLawfulSample result }
    ensures server { result.server ≡ 0 }
{
    Sample {
        server: 0,
        low: -42_949_674,
        low_from: TICK,
        low_to: TICK + 4295,
        high: 42_953_969,
        high_from: TICK + 85_899_345,
        high_to: TICK + 85_903_641,
    }
}

#[test]
fn best_samples(rt: HostRuntime) {
    for (server, chosen) in [(0, Some((0, 0))), (1, None)] {
        let samples = [twenty_milliseconds()];
        assert_equal(&rt, best(&samples, server, TICK, TICK, 0), chosen);
    }
}
