//! The samples of exchanges.

ghost use Rattle.std.specs.Prelude.{◌≡◌, ◌^◌, ⊤, pos, ◌≤ℤ◌, map, All};
ghost use Rattle.pairing.specs.Exchange.{IsLawful};
ghost use Rattle.sample_interval.specs.Sample.{sample_of};

use crate::bounds::sample;
use crate::kinds::Sample;
use crate::source::SampleSource;
use pairing::ToExchange;
use std::alloc::AllocError;

/// The samples of exchanges, each made when it is asked for: no list of them takes memory.
pub struct ExchangeSamples<'a, X: ToExchange> {
    /// The exchanges. Each keeps the limits of a capture's exchanges.
    pub exchanges: &'a [X],
    /// How far a record time may be from the clock's reading: from 0 to 2^32 ticks.
    pub reading: i128,
    ghost lawful: { All (IsLawful 32) (map X.shown exchanges.now) },
    ghost from_zero: { pos 0 ≤ℤ reading },
    ghost at_most_a_second: { reading ≤ℤ pos (2 ^ 32) },
}

impl<'a, X: ToExchange> Clone for ExchangeSamples<'a, X> {
    ghost is_clone = { λ made copied. copied ≡ made };

    ghost is_infallible = { λ _. ⊤ };

    fn clone(&self) -> Result<Self, AllocError> {
        Ok(*self)
    }
}

impl<'a, X: ToExchange> Copy for ExchangeSamples<'a, X> {}

impl<'a, X: ToExchange> SampleSource for ExchangeSamples<'a, X> {
    ghost samples = { λ made.
        map (λ x. sample_of x made.reading) (map X.shown made.exchanges.now) };

    #[inline(always)]
    fn count(self) -> usize {
        self.exchanges.len()
    }

    #[inline(always)]
    fn sample_at(self, number: usize) -> Sample {
        sample(&self.exchanges[number].to_exchange(), self.reading)
    }
}
