//! A file of sums, and what it gives for the inputs of a run.

ghost use Rattle.std.specs.Prelude.{◌≡◌, Some, None, Ok, IfOk, IfErr, map};
ghost use Rattle.summed_inputs.specs.Common.{sums_of, data_of as sum_data, digest_named, Sums as Refused, Missing};
ghost use Rattle.summed_inputs.specs.Sums.{AreGiven, IsOfSums, sums_data};

use crate::named_feed::NamedFeed;
use crate::second::SummedSource;
use audit::SecondInput;
use report::{Input, RunFault, SumsFault};
use std::alloc::Global;
use sum_file::{Sum, SumFault, digest_of, read_sums};

/// The greatest length of a file of sums, in bytes.
pub const MAX_SUMS: u64 = 65536;

/// The SHA-256 that is given for each input of a run, 32 bytes each.
#[derive(Drop)]
pub(crate) struct InputSums<D> {
    /// That of the claim.
    pub(crate) claim: [u8; 32],
    /// That of the second input, if there is one.
    pub(crate) second: D,
    /// That of the capture.
    pub(crate) capture: [u8; 32],
}

/// The digest that is given for an input under its name. The fault is that it's missing.
pub(crate) fn digest_for(sums: &[Sum], input: Input, name: &str) -> Result<[u8; 32], RunFault>
    ensures given { IfOk result (λ digest.
        digest_named name.now (map sum_data sums.now) ≡ Some digest) }
    ensures missing { IfErr result (λ fault. (fault ≡ Refused (Missing input))
        × (digest_named name.now (map sum_data sums.now) ≡ None)) }
{
    match digest_of(sums, name.as_bytes()) {
        Some(digest) => Ok(digest),
        None => Err(RunFault::Sums(SumsFault::Missing(input))),
    }
}

/// The digests that a file of sums gives for the inputs of a run.
///
/// `Sums` comes if a line isn't lawful, or, in the order claim, second input, capture, if none has
/// an input's name.
pub(crate) fn input_sums<V: SecondInput, C: NamedFeed, T: SummedSource<V>, F: NamedFeed>(
    alloc: Global,
    sums: &[u8],
    claim: &C,
    second: &T,
    capture: &F,
) -> Result<InputSums<T::Digest>, RunFault>
    ensures given { IfOk result (λ given. AreGiven V.kind
        (sums_data sums.now (C.named claim.now) (T.named second.now) (F.named capture.now))
        (record { claim = given.claim; second = T.digest given.second; capture = given.capture })) }
    ensures fault { IfErr result (IsOfSums V.kind
        (sums_data sums.now (C.named claim.now) (T.named second.now) (F.named capture.now))) }
{
    let listed = match read_sums(alloc, sums) {
        Ok(listed) => listed,
        Err(SumFault::Form(line)) => return Err(RunFault::Sums(SumsFault::Form(line))),
        Err(SumFault::Memory) => return Err(RunFault::Memory),
    };
    let listed = listed.as_slice();
    Ok(InputSums {
        claim: digest_for(listed, Input::Claim, claim.name())?,
        second: second.digest_in(listed)?,
        capture: digest_for(listed, Input::Capture, capture.name())?,
    })
}
