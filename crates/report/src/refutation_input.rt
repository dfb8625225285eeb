//! The reading of a refutation.

ghost use Rattle.std.specs.Prelude.{IfErr, IfSome};
ghost use Rattle.report.specs.Common.{CountsFault, TakesAtMost, IsReadable, data_of};
ghost use Rattle.report.specs.Input.{most_read};
ghost use Rattle.report.specs.Reading.{Reads};
ghost use Rattle.report.specs.RefutationInput.{IsOfRefutation, refutation_read, max_refutation};
ghost use Rattle.report.specs.Reports.{is_second, is_device};

use crate::fault::{Input, RunFault};
use crate::input::read_input;
use byte_stream::Feed;
use certificate::{Refutation, read_refutation};
use std::alloc::Global;

/// The greatest length of a refutation, in bytes.
pub const MAX_REFUTATION: u64 = 65536;

/// Reads a refutation whole: at most 65,536 bytes, and one more if there are more.
///
/// `TooBig` comes if there are more, `Refutation` if they aren't a refutation, `Device` if the feed
/// failed.
pub fn read_refutation_from<T: Feed>(alloc: Global, feed: &mut T) -> Result<Refutation, RunFault>
    requires { IsReadable (T.state feed.old) }
    ensures known { IfSome (T.state feed.old).remaining (λ bytes.
        Reads data_of (refutation_read bytes) result) }
    ensures fault { IfErr result IsOfRefutation }
    ensures counts_fault { CountsFault (is_device is_second result)
        (T.state feed.old).faults (T.state feed.new).faults }
    ensures at_most { TakesAtMost (most_read Input.Refutation max_refutation result)
        (T.state feed.old) (T.state feed.new) }
{
    match read_input(alloc, feed, Input::Refutation, MAX_REFUTATION) {
        Ok(bytes) => match read_refutation(alloc, bytes.as_slice()) {
            Ok(refutation) => Ok(refutation),
            Err(fault) => Err(RunFault::from(fault)),
        },
        Err(fault) => Err(fault),
    }
}
