//! What a listing says about one record.

ghost use Rattle.std.specs.Prelude.{◌≡◌, ◌+◌, ◌<◌, ◌≤◌, Some, None, OnOk, if◌then◌else◌};
ghost use Rattle.listing.specs.Common.{per_second, IsReady, put_count, output_state, sink_name};
ghost use Rattle.listing.specs.PacketLine.{line_of};
ghost use Rattle.listing.specs.Progress.{PutsLine, most_line};

use crate::packet_line::write_packet_line;
use byte_stream::Sink;
use line_writer::Line;
use ntp_packet::packet;
use pcap_reader::RecordHead;
use report::{Output, RunFault};

/// Writes the line of a record in place of what `line` held, and answers whether it has one:
/// whether it holds an NTP packet.
#[tactic(auto, unfolding(crate::specs::PacketLine::line_of))]
fn write_line(line: &mut Line, head: &RecordHead, bytes: &[u8]) -> bool
    requires { head.now.sub < per_second head.now.unit }
    ensures { line_of (record { head = head.now; bytes = bytes.now })
        ≡ (if result then Some line.new else None) }
{
    match packet(bytes) {
        Some(packet) => {
            write_packet_line(line, head, &packet);
            true
        }
        None => false,
    }
}

/// Puts the line of a record, if it has one, and answers how many lines that are.
pub(crate) fn list_record<S: Sink>(
    line: &mut Line,
    out: &mut Output<'_, S>,
    head: &RecordHead,
    bytes: &[u8],
) -> Result<u32, RunFault>
    requires lawful { head.now.sub < per_second head.now.unit }
    requires ready { IsReady (output_state S.state out.old) }
    ensures same_sink { sink_name out.new ≡ sink_name out.old }
    ensures puts { PutsLine (line_of (record { head = head.now; bytes = bytes.now }))
        (output_state S.state out.old)
        (output_state S.state out.new) result }
    ensures at_most { OnOk result
        (put_count (output_state S.state out.new)
        ≤ put_count (output_state S.state out.old) + most_line) }
{
    if !write_line(line, head, bytes) {
        return Ok(0);
    }
    match out.put(line.as_bytes()) {
        Ok(()) => Ok(1),
        Err(fault) => Err(fault),
    }
}
