//! The run of `list` over a feed and a sink.

ghost use Rattle.std.specs.Prelude.{◌≡◌, IfSome, Err};
ghost use Rattle.listing.specs.Common.{option_map, TakesAtMost, IsReadable, IsWritable, CaptureFault, most_taken, buffer_size, capture_of, Reports, capture_state};
ghost use Rattle.listing.specs.Listing.{list_report};

use crate::list::list_from;
use byte_stream::{Feed, Sink};
use pcap_reader::Capture;
use report::{Outcome, RunFault, output_buffer, publish};
use std::alloc::{AllocError, Global};

/// Lists a capture: one line for each NTP packet as its record is read, and at the end of a whole
/// capture a closing line. The feed is handed back beside the answer.
///
/// All memory is taken before the first byte is: at `Memory` the feed is as it was, and the sink
/// holds what it held. A capture that is refused gives `Capture`, and the lines of the records
/// before the fault have gone out then, without the closing line. `Device` comes if the feed
/// failed, with some first lines gone out, whole; `Write(n)` if the sink failed, and exactly the
/// first n bytes of the text have gone out then. The sink is closed with each answer.
///
/// At most 1,048,640,000,025 bytes are taken of the feed, of a device too, and of known ones that
/// begin with no lawful header at most one buffer.
pub fn run_list<F: Feed, S: Sink>(
    alloc: Global,
    capture: F,
    out: &mut S,
) -> (F, Result<Outcome, RunFault>)
    requires feed { IsReadable (F.state capture) }
    requires sink { IsWritable (S.state out.old) }
    ensures reports { Reports (option_map list_report (F.state capture).remaining)
        (capture_state (F.state capture) (S.state out.old))
        (capture_state (F.state result.0) (S.state out.new)) result.1 }
    ensures memory { result.1 ≡ Err RunFault.Memory → result.0 ≡ capture }
    ensures at_most { TakesAtMost most_taken (F.state capture) (F.state result.0) }
    ensures refused_header { IfSome (F.state capture).remaining (λ bytes.
        (fault : CaptureFault) → capture_of bytes ≡ Err fault → TakesAtMost buffer_size
        (F.state capture) (F.state result.0)) }
{
    let mut buffer = match output_buffer(alloc) {
        Ok(buffer) => buffer,
        Err(AllocError) => return (capture, publish(out, &Err(RunFault::Memory))),
    };
    match Capture::begin(alloc, capture) {
        Ok(mut source) => {
            let answer = list_from(&mut source, &mut buffer, out);
            (source.into_feed(), answer)
        }
        Err((feed, fault)) => {
            let answer = publish(out, &Err(RunFault::from(fault)));
            (feed, answer)
        }
    }
}
