//! The second input of a question: none, a certificate of either form, a refutation or readings.

ghost use Rattle.std.specs.Prelude.{◌≡◌, IfOk, IfErr, IfSome};
ghost use Rattle.audit.specs.Common.{AreLawfulTimes, times_data, CountsFault, TakesAtMost, FeedState, IsReadable, IsFewOfAny, any_data, refutation_data, Reads, is_device, is_second, no_feed};
ghost use Rattle.audit.specs.Second.{IsOfSecond, SecondData, SecondKind, most_second, second_read, no_second, certificate_second, refutation_second, times_second, nothing_said, certificate_said, refutation_said, times_said};

use byte_stream::Feed;
use certificate::Refutation;
use cover_certificate::AnyCertificate;
use reading_time::Times;
use report::{RunFault, read_certificate_from, read_refutation_from, read_times_from};
use std::alloc::Global;

/// What a second input says. A question without one has nothing, `()`.
pub trait SecondInput: Drop {
    /// Which input it is.
    ghost kind: { SecondKind };

    /// What it says.
    ghost said: { Self → SecondData };

    /// It keeps its limits.
    ghost IsLawful: { Self → Type 0 };
}

impl SecondInput for () {
    ghost kind = { no_second };

    ghost said = { λ _. nothing_said };

    ghost IsLawful = { λ _. Unit {0} };
}

impl SecondInput for AnyCertificate {
    ghost kind = { certificate_second };

    ghost said = { λ certificate. certificate_said (any_data certificate) };

    ghost IsLawful = { λ certificate. IsFewOfAny (any_data certificate) };
}

impl SecondInput for Refutation {
    ghost kind = { refutation_second };

    ghost said = { λ refutation. refutation_said (refutation_data refutation) };

    ghost IsLawful = { λ _. Unit {0} };
}

impl SecondInput for Times {
    ghost kind = { times_second };

    ghost said = { λ times. times_said (times_data times) };

    ghost IsLawful = { AreLawfulTimes };
}

/// Where a second input comes from: a feed, or `()` if there is none.
pub trait SecondSource<V: SecondInput> {
    /// The feed's state: if there is none, that of a feed without a byte.
    ghost state: { Self → FeedState };

    /// Reads the second input. The faults are those of that input, and come as its reader has them.
    fn read_second(&mut self, alloc: Global) -> Result<V, RunFault>
        requires { IsReadable (state self.old) }
        ensures known { IfSome (second_read V.kind (state self.old).remaining)
            (λ expected. Reads V.said expected result) }
        ensures lawful { IfOk result V.IsLawful }
        ensures fault { IfErr result IsOfSecond }
        ensures counts_fault { CountsFault (is_device is_second result)
            (state self.old).faults (state self.new).faults }
        ensures at_most { TakesAtMost (most_second V.kind result)
            (state self.old) (state self.new) };
}

impl SecondSource<()> for () {
    ghost state = { λ _. no_feed };

    fn read_second(&mut self, _alloc: Global) -> Result<(), RunFault> {
        Ok(())
    }
}

impl<T: Feed> SecondSource<AnyCertificate> for T {
    ghost state = { T.state };

    fn read_second(&mut self, alloc: Global) -> Result<AnyCertificate, RunFault> {
        read_certificate_from(alloc, self)
    }
}

impl<T: Feed> SecondSource<Refutation> for T {
    ghost state = { T.state };

    fn read_second(&mut self, alloc: Global) -> Result<Refutation, RunFault> {
        read_refutation_from(alloc, self)
    }
}

impl<T: Feed> SecondSource<Times> for T {
    ghost state = { T.state };

    fn read_second(&mut self, alloc: Global) -> Result<Times, RunFault> {
        read_times_from(alloc, self)
    }
}
