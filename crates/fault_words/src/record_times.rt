//! When a capture was recorded.

ghost use Rattle.std.specs.Prelude.{◌^◌, ◌-◌, ◌<◌, ◌≤◌, IfSome};
ghost use Rattle.byte_stream.specs.State.{IsReadable};

use crate::record_count::MAX_CALLS;
use crate::slip::Recorded;
use byte_stream::Feed;
use pcap_reader::{Capture, RecordSource};
use std::alloc::Global;

/// The same with a record of this second more.
fn with_second(seen: Option<Recorded>, second: u32) -> Recorded
    requires { IfSome seen (λ times. times.first ≤ times.last) }
    ensures ordered { result.first ≤ result.last }
    ensures holds { (result.first ≤ second) × (second ≤ result.last) }
    ensures grows { IfSome seen (λ times.
        (result.first ≤ times.first) × (times.last ≤ result.last)) }
{
    match seen {
        Some(times) => Recorded {
            first: times.first.min(second),
            last: times.last.max(second),
        },
        None => Recorded {
            first: second,
            last: second,
        },
    }
}

/// The seconds of a source's records up to its end or a fault, if there is one.
fn times_of<S: RecordSource>(source: &mut S) -> Option<Recorded>
    requires room { (S.state source.old).fault_count < 2 ^ 64 - 1 }
    ensures { IfSome result (λ times. times.first ≤ times.last) }
{
    let mut seen: Option<Recorded> = None;
    for _call in 0..MAX_CALLS {
        match source.next_record() {
            Ok(Some(head)) => seen = Some(with_second(seen, head.sec)),
            Ok(None) | Err(_) => return seen,
        }
    }
    seen
}

/// The least second of a capture's records and the greatest, if it has a record.
pub fn look_at_times<F: Feed + Drop>(alloc: Global, feed: F) -> Option<Recorded>
    requires { IsReadable (F.state feed) }
    ensures { IfSome result (λ times. times.first ≤ times.last) }
{
    times_of(&mut Capture::begin(alloc, feed).ok()?)
}
