//! The second input of a question, held to its sum.

ghost use Rattle.std.specs.Prelude.{◌≡◌, ℕ, List, [], Some, None, IfOk, IfErr, IfSome, map};
ghost use Rattle.summed_inputs.specs.Common.{CountsFault, TakesAtMost, IsReadable, Reads, is_device, is_second, data_of as sum_data, digest_named, IsOfSecond, most_second as most_taken, second_read};
ghost use Rattle.summed_inputs.specs.Holding.{IsHeld, IsSecondUnheld, OfSecond, most_second};
ghost use Rattle.summed_inputs.specs.Sums.{IsSecondMissing, needed};

use crate::holding::read_held;
use crate::named_feed::NamedFeed;
use crate::sums::digest_for;
use audit::{SecondInput, SecondSource};
use byte_stream::Feed;
use certificate::Refutation;
use cover_certificate::AnyCertificate;
use reading_time::Times;
use report::{Input, RunFault};
use std::alloc::Global;
use sum_file::Sum;

/// A second input that may be held to its sum.
pub trait SummedInput: SecondInput {
    /// Reads it from a feed, as a source of such an input reads it.
    fn read_from<F: Feed>(alloc: Global, feed: &mut F) -> Result<Self, RunFault>
        requires { IsReadable (F.state feed.old) }
        ensures known { IfSome (second_read Self.kind (F.state feed.old).remaining)
            (λ expected. Reads Self.said expected result) }
        ensures lawful { IfOk result Self.IsLawful }
        ensures fault { IfErr result IsOfSecond }
        ensures counts_fault { CountsFault (is_device is_second result)
            (F.state feed.old).faults (F.state feed.new).faults }
        ensures at_most { TakesAtMost (most_taken Self.kind result)
            (F.state feed.old) (F.state feed.new) };
}

impl SummedInput for () {
    fn read_from<F: Feed>(_alloc: Global, _feed: &mut F) -> Result<(), RunFault> {
        Ok(())
    }
}

impl SummedInput for AnyCertificate {
    fn read_from<F: Feed>(alloc: Global, feed: &mut F) -> Result<AnyCertificate, RunFault> {
        feed.read_second(alloc)
    }
}

impl SummedInput for Refutation {
    fn read_from<F: Feed>(alloc: Global, feed: &mut F) -> Result<Refutation, RunFault> {
        feed.read_second(alloc)
    }
}

impl SummedInput for Times {
    fn read_from<F: Feed>(alloc: Global, feed: &mut F) -> Result<Times, RunFault> {
        feed.read_second(alloc)
    }
}

/// Where a second input comes from that is held to its sum: a feed with a name, or `()` if the
/// question has none, which needs no sum.
pub trait SummedSource<V: SecondInput>: SecondSource<V> {
    /// Its SHA-256.
    type Digest: Drop;

    /// The name by which a file of sums gives its sum: none, if there is no second input.
    ghost named: { Self → List ℕ };

    /// The bytes of its SHA-256.
    ghost digest: { Self.Digest → List ℕ };

    /// The digest that is given for it. The fault is that it's missing.
    fn digest_in(&self, sums: &[Sum]) -> Result<Self::Digest, RunFault>
        ensures given { IfOk result (λ given.
            needed V.kind (digest_named (named self.now) (map sum_data sums.now))
            ≡ Some (digest given)) }
        ensures missing { IfErr result (λ fault. IsSecondMissing V.kind fault
            × (needed V.kind (digest_named (named self.now) (map sum_data sums.now)) ≡ None)) };

    /// Reads it whole into `read`, and holds it to a digest. The faults are those of `read_held`.
    fn hold(
        &mut self,
        alloc: Global,
        sum: &Self::Digest,
        read: &mut Vec<u8>,
    ) -> Result<(), RunFault>
        requires { IsReadable (Self.state self.old) }
        ensures held { IfOk result (λ done. OfSecond V.kind read.new.items
            (IsHeld (digest sum.now) (Self.state self.old).remaining read.new.items)) }
        ensures fault { IfErr result (IsSecondUnheld V.kind (digest sum.now)
            (Self.state self.old).remaining read.new.items) }
        ensures counts_fault { CountsFault (is_device is_second result)
            (Self.state self.old).faults (Self.state self.new).faults }
        ensures at_most { TakesAtMost (most_second V.kind)
            (Self.state self.old) (Self.state self.new) };
}

impl SummedSource<()> for () {
    type Digest = ();

    ghost named = { λ _. [] };

    ghost digest = { λ _. [] };

    fn digest_in(&self, _sums: &[Sum]) -> Result<(), RunFault> {
        Ok(())
    }

    fn hold(&mut self, alloc: Global, _sum: &(), read: &mut Vec<u8>) -> Result<(), RunFault> {
        *read = Vec::new(alloc);
        Ok(())
    }
}

impl<T: NamedFeed> SummedSource<AnyCertificate> for T {
    type Digest = [u8; 32];

    ghost named = { T.named };

    ghost digest = { λ digest. digest };

    fn digest_in(&self, sums: &[Sum]) -> Result<[u8; 32], RunFault> {
        digest_for(sums, Input::Certificate, self.name())
    }

    fn hold(&mut self, alloc: Global, sum: &[u8; 32], read: &mut Vec<u8>) -> Result<(), RunFault> {
        read_held(alloc, self, Input::Certificate, sum, read)
    }
}

impl<T: NamedFeed> SummedSource<Refutation> for T {
    type Digest = [u8; 32];

    ghost named = { T.named };

    ghost digest = { λ digest. digest };

    fn digest_in(&self, sums: &[Sum]) -> Result<[u8; 32], RunFault> {
        digest_for(sums, Input::Refutation, self.name())
    }

    fn hold(&mut self, alloc: Global, sum: &[u8; 32], read: &mut Vec<u8>) -> Result<(), RunFault> {
        read_held(alloc, self, Input::Refutation, sum, read)
    }
}

impl<T: NamedFeed> SummedSource<Times> for T {
    type Digest = [u8; 32];

    ghost named = { T.named };

    ghost digest = { λ digest. digest };

    fn digest_in(&self, sums: &[Sum]) -> Result<[u8; 32], RunFault> {
        digest_for(sums, Input::Times, self.name())
    }

    fn hold(&mut self, alloc: Global, sum: &[u8; 32], read: &mut Vec<u8>) -> Result<(), RunFault> {
        read_held(alloc, self, Input::Times, sum, read)
    }
}
