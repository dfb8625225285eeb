//! The reading of a file of readings.

ghost use Rattle.std.specs.Prelude.{IfOk, IfErr, IfSome};
ghost use Rattle.report.specs.Common.{AreLawfulTimes, CountsFault, TakesAtMost, IsReadable, times_data};
ghost use Rattle.report.specs.Input.{most_read};
ghost use Rattle.report.specs.Reading.{Reads};
ghost use Rattle.report.specs.Reports.{is_second, is_device};
ghost use Rattle.report.specs.TimesInput.{IsOfTimes, max_times, times_read};

use crate::fault::{Input, RunFault};
use crate::input::read_input;
use byte_stream::Feed;
use reading_time::{Times, read_times};
use std::alloc::Global;

/// The greatest length of a file of readings, in bytes: 1,000,000 of the longest lines have room.
pub const MAX_TIMES: u64 = 33_554_432;

/// Reads a file of readings whole: at most 33,554,432 bytes, and one more if there are more.
///
/// `TooBig` comes if there are more, `Times` if a line isn't a reading or there are too many,
/// `Device` if the feed failed.
pub fn read_times_from<T: Feed>(alloc: Global, feed: &mut T) -> Result<Times, RunFault>
    requires { IsReadable (T.state feed.old) }
    ensures known { IfSome (T.state feed.old).remaining (λ bytes.
        Reads times_data (times_read bytes) result) }
    ensures lawful { IfOk result AreLawfulTimes }
    ensures fault { IfErr result IsOfTimes }
    ensures counts_fault { CountsFault (is_device is_second result)
        (T.state feed.old).faults (T.state feed.new).faults }
    ensures at_most { TakesAtMost (most_read Input.Times max_times result)
        (T.state feed.old) (T.state feed.new) }
{
    match read_input(alloc, feed, Input::Times, MAX_TIMES) {
        Ok(bytes) => match read_times(alloc, bytes.as_slice()) {
            Ok(times) => Ok(times),
            Err(fault) => Err(RunFault::from(fault)),
        },
        Err(fault) => Err(fault),
    }
}
