//! The line of `list` for one NTP packet.

ghost use Rattle.std.specs.Prelude.{◌≡◌, ◌+◌, ◌<◌, ◌≤◌, ◌∷◌, [], ◌++◌, length, pos, ◌≤ℤ◌, ◌^◌};
ghost use Rattle.listing.specs.Common.{decimal, per_second, fields_of, packet_shown};
ghost use Rattle.line_writer.specs.declared.line.TheConstants.{CAPACITY};
ghost use Rattle.listing.specs.PacketLine.{time_field, endpoint_fields, mode_fields, clock_fields, root_fields, stamp_fields, unfolded_text, tick_fields, packet_line, spaced};

use era_unfold::{Unit, high, low, unfold};
use frame_reader::kinds::Datagram;
use line_writer::Line;
use ntp_packet::NtpView;
use ntp_packet::kinds::Packet;
use pcap_reader::RecordHead;

/// The record's number and its time.
#[tactic(auto, unfolding(crate::specs::PacketLine::time_field))]
#[inline]
fn put_record(line: &mut Line, head: &RecordHead)
    requires room { length line.old + 32 ≤ CAPACITY }
    requires lawful { head.now.sub < per_second head.now.unit }
    ensures text { line.new ≡
        decimal head.now.number ++ spaced (time_field head.now ∷ []) line.old }
    ensures at_most { length line.new ≤ length line.old + 32 }
{
    match head.unit {
        Unit::Micro => line.put_six_digits(head.sub),
        Unit::Nano => line.put_nine_digits(head.sub),
    }
    line.put_byte(b'.');
    line.put_number(head.sec);
    line.put_byte(b' ');
    line.put_number(head.number);
}

/// From where and to where.
#[tactic(auto, unfolding(crate::specs::PacketLine::endpoint_fields))]
#[inline]
fn put_endpoints(line: &mut Line, datagram: &Datagram<'_>)
    requires { length line.old + 44 ≤ CAPACITY }
    ensures text { line.new ≡ spaced (endpoint_fields (fields_of datagram.now)) line.old }
    ensures at_most { length line.new ≤ length line.old + 44 }
{
    line.put_endpoint(&datagram.destination, datagram.destination_port);
    line.put_byte(b' ');
    line.put_endpoint(&datagram.source, datagram.source_port);
    line.put_byte(b' ');
}

/// Version, mode and leap indicator.
#[tactic(auto, unfolding(crate::specs::PacketLine::mode_fields))]
#[inline]
fn put_mode(line: &mut Line, header: &NtpView<'_>)
    requires { length line.old + 15 ≤ CAPACITY }
    ensures text { line.new ≡ spaced (mode_fields header.now) line.old }
    ensures at_most { length line.new ≤ length line.old + 15 }
{
    line.put_number(header.leap());
    line.put_pair(b' ', b'l');
    line.put_number(header.mode());
    line.put_pair(b' ', b'm');
    line.put_number(header.version());
    line.put_pair(b' ', b'v');
}

/// Stratum and precision.
#[tactic(auto, unfolding(crate::specs::PacketLine::clock_fields))]
#[inline]
fn put_clock(line: &mut Line, header: &NtpView<'_>)
    requires { length line.old + 11 ≤ CAPACITY }
    ensures text { line.new ≡ spaced (clock_fields header.now) line.old }
    ensures at_most { length line.new ≤ length line.old + 11 }
{
    line.put_number(header.precision());
    line.put_pair(b' ', b'p');
    line.put_number(header.stratum());
    line.put_pair(b' ', b's');
}

/// Root delay, root dispersion and reference identifier.
#[tactic(auto, unfolding(crate::specs::PacketLine::root_fields))]
#[inline]
fn put_root(line: &mut Line, header: &NtpView<'_>)
    requires { length line.old + 31 ≤ CAPACITY }
    ensures text { line.new ≡ spaced (root_fields header.now) line.old }
    ensures at_most { length line.new ≤ length line.old + 31 }
{
    line.put_hexadecimal(&header.reference_id());
    line.put_byte(b' ');
    line.put_number(header.root_dispersion());
    line.put_byte(b' ');
    line.put_number(header.root_delay());
    line.put_byte(b' ');
}

/// The four timestamps as they stand.
#[tactic(auto, unfolding(crate::specs::PacketLine::stamp_fields))]
#[inline]
fn put_stamps(line: &mut Line, header: &NtpView<'_>)
    requires { length line.old + 68 ≤ CAPACITY }
    ensures text { line.new ≡ spaced (stamp_fields header.now) line.old }
    ensures grows { length line.new ≡ length line.old + 68 }
{
    line.put_stamp(header.transmit());
    line.put_byte(b' ');
    line.put_stamp(header.receive());
    line.put_byte(b' ');
    line.put_stamp(header.origin());
    line.put_byte(b' ');
    line.put_stamp(header.reference());
    line.put_byte(b' ');
}

/// A timestamp unfolded near the record's time, or a dash if it's unknown.
#[tactic(auto, unfolding(crate::specs::PacketLine::unfolded_text))]
#[inline]
fn put_unfolded(line: &mut Line, stamp: u64, near: i128)
    requires room { length line.old + 40 ≤ CAPACITY }
    requires from_1970 { pos 0 ≤ℤ near }
    requires one_era { near ≤ℤ pos (2 ^ 64) }
    ensures text { line.new ≡ unfolded_text near stamp ++ line.old }
    ensures at_most { length line.new ≤ length line.old + 40 }
{
    if stamp == 0 {
        line.put_byte(b'-');
    } else {
        line.put_number(unfold(stamp, near));
    }
}

/// The window of the record's time, and when the sender says that it received and sent.
#[tactic(auto, unfolding(crate::specs::PacketLine::tick_fields))]
#[inline]
fn put_ticks(line: &mut Line, head: &RecordHead, header: &NtpView<'_>)
    requires room { length line.old + 164 ≤ CAPACITY }
    requires lawful { head.now.sub < per_second head.now.unit }
    ensures text { line.new ≡ spaced (tick_fields head.now header.now) line.old }
    ensures at_most { length line.new ≤ length line.old + 164 }
{
    let near = low(head.sec, head.sub, head.unit);
    put_unfolded(line, header.transmit(), near);
    line.put_byte(b' ');
    put_unfolded(line, header.receive(), near);
    line.put_byte(b' ');
    line.put_number(high(head.sec, head.sub, head.unit));
    line.put_byte(b' ');
    line.put_number(near);
    line.put_byte(b' ');
}

/// Writes the line of a packet in place of what `line` held: twenty fields and a line feed, at most
/// 400 bytes.
#[tactic(auto, unfolding(crate::specs::PacketLine::packet_line))]
pub fn write_packet_line(line: &mut Line, head: &RecordHead, packet: &Packet<'_>)
    requires lawful { head.now.sub < per_second head.now.unit }
    ensures text { line.new ≡ packet_line head.now (packet_shown packet.now) }
    ensures at_most { length line.new ≤ 400 }
{
    line.clear();
    line.put_byte(b'\n');
    put_ticks(line, head, &packet.header);
    put_stamps(line, &packet.header);
    put_root(line, &packet.header);
    put_clock(line, &packet.header);
    put_mode(line, &packet.header);
    put_endpoints(line, &packet.datagram);
    put_record(line, head);
}
