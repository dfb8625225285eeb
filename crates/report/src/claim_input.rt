//! The reading of a claim.

ghost use Rattle.std.specs.Prelude.{IfOk, IfErr, IfSome};
ghost use Rattle.report.specs.Common.{CountsFault, TakesAtMost, IsReadable, IsLawful};
ghost use Rattle.claim_file.specs.Claim.{data_of};
ghost use Rattle.report.specs.ClaimInput.{IsOfClaim, claim_read, max_claim};
ghost use Rattle.report.specs.Input.{most_read};
ghost use Rattle.report.specs.Reading.{Reads};
ghost use Rattle.report.specs.Reports.{is_claim, is_device};

use crate::fault::{Input, RunFault};
use crate::input::read_input;
use byte_stream::Feed;
use claim_file::{Claim, read_claim};
use std::alloc::Global;

/// The greatest length of a claim, in bytes.
pub const MAX_CLAIM: u64 = 65536;

/// Reads a claim whole: at most 65,536 bytes, and one more if there are more.
///
/// `TooBig` comes if there are more, `Claim` if they aren't a claim, `Device` if the feed failed.
pub fn read_claim_from<C: Feed>(alloc: Global, feed: &mut C) -> Result<Claim, RunFault>
    requires { IsReadable (C.state feed.old) }
    ensures known { IfSome (C.state feed.old).remaining (λ bytes.
        Reads data_of (claim_read bytes) result) }
    ensures lawful { IfOk result (λ claim. IsLawful (data_of claim)) }
    ensures fault { IfErr result IsOfClaim }
    ensures counts_fault { CountsFault (is_device is_claim result)
        (C.state feed.old).faults (C.state feed.new).faults }
    ensures at_most { TakesAtMost (most_read Input.Claim max_claim result)
        (C.state feed.old) (C.state feed.new) }
{
    match read_input(alloc, feed, Input::Claim, MAX_CLAIM) {
        Ok(bytes) => match read_claim(alloc, bytes.as_slice()) {
            Ok(claim) => Ok(claim),
            Err(fault) => Err(RunFault::from(fault)),
        },
        Err(fault) => Err(fault),
    }
}
