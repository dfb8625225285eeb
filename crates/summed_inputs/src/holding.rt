//! One input, read whole and held to its sum.

ghost use Rattle.std.specs.Prelude.{◌≡◌, ◌+◌, ◌↔◌, IsOk, IfOk, IfErr};
ghost use Rattle.summed_inputs.specs.Common.{IsBytes, CountsFault, TakesAtMost, IsReadable, read_failed, Sums as Refused, Differ, sha256};
ghost use Rattle.summed_inputs.specs.Holding.{IsHeld, IsUnheld, limit_of};

use crate::sums::MAX_SUMS;
use byte_stream::Feed;
use report::{
    Input, MAX_CERTIFICATE, MAX_CLAIM, MAX_REFUTATION, MAX_TIMES, RunFault, SumsFault, read_onto,
};
use sha2::{Digest, Sha256};
use std::alloc::Global;

/// The greatest length of a capture that is held in memory, in bytes: 16 GiB.
const MAX_CAPTURE: u64 = 17_179_869_184;

/// The greatest length of an input, in bytes.
pub(crate) fn limit(which: Input) -> u64
    ensures { result ≡ limit_of which }
{
    match which {
        Input::Claim => MAX_CLAIM,
        Input::Capture => MAX_CAPTURE,
        Input::Certificate => MAX_CERTIFICATE,
        Input::Refutation => MAX_REFUTATION,
        Input::Sums => MAX_SUMS,
        Input::Times => MAX_TIMES,
    }
}

/// Reads an input whole, and holds it to a digest, its SHA-256. `read` gets what was read.
///
/// `Sums` comes if its bytes have another digest, `TooBig` if it has more than its limit, after one
/// byte past it, and `Device` exactly if the feed failed.
pub(crate) fn read_held<F: Feed>(
    alloc: Global,
    feed: &mut F,
    which: Input,
    sum: &[u8; 32],
    read: &mut Vec<u8>,
) -> Result<(), RunFault>
    requires { IsReadable (F.state feed.old) }
    ensures held { IfOk result (λ done.
        IsHeld sum.now (F.state feed.old).remaining read.new.items) }
    ensures fault { IfErr result
        (IsUnheld which sum.now (F.state feed.old).remaining read.new.items) }
    ensures counts_fault { CountsFault (read_failed result)
        (F.state feed.old).faults (F.state feed.new).faults }
    ensures at_most { TakesAtMost (limit_of which + 1) (F.state feed.old) (F.state feed.new) }
{
    read_onto(alloc, feed, which, limit(which), read)?;
    if Sha256::digest(read.as_slice()) == *sum {
        Ok(())
    } else {
        Err(RunFault::Sums(SumsFault::Differ(which)))
    }
}
