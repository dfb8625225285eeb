//! Samples under their numbers.

ghost use Rattle.std.specs.Prelude.{◌≡◌, ◌<◌, List, length, Some, slice_get};
ghost use Rattle.sample_interval.specs.declared.kinds.Sample.{Sample};

use crate::kinds::Sample;

/// What gives samples under their numbers, in whatever form it holds them.
pub trait SampleSource: Copy {
    /// The samples, in their order.
    ghost samples: { Self → List Sample };

    /// How many there are.
    fn count(self) -> usize
        ensures { result ≡ length (samples self) };

    /// The sample of this number.
    fn sample_at(self, number: usize) -> Sample
        requires { number < length (samples self) }
        ensures { slice_get (samples self) number ≡ Some result };
}

impl<'a> SampleSource for &'a [Sample] {
    ghost samples = { λ listed. listed.now };

    #[inline(always)]
    fn count(self) -> usize {
        self.len()
    }

    #[inline(always)]
    fn sample_at(self, number: usize) -> Sample {
        self[number]
    }
}
