//! Laws of the listing. A law is a function that does nothing: its contract is the law.

ghost use Rattle.std.specs.Prelude.{◌≡◌, ◌++◌, ℕ, List, [], length, codes, Ok, Err};
ghost use Rattle.listing.specs.Common.{join_with_byte, Packet, RecordHead, CaptureFault, Format, IsBytes, IsBrokenAfter, Record, IsCapture};
ghost use Rattle.listing.specs.Listing.{lines_of, closing_line, list_report};
ghost use Rattle.listing.specs.PacketLine.{packet_fields, packet_line};

use pcap_reader::laws::{capture_is_read, fault_is_the_first};
use report::{Outcome, RunFault};

/// The listing of a capture is the lines of its records and the closing line.
pub fn capture_is_listed()
    ensures { (bytes : List ℕ) (format : Format) (records : List Record) →
        IsCapture bytes format records →
        list_report bytes ≡ record {
          lines = lines_of records;
          closing = closing_line (length records) (length (lines_of records));
          answer = Ok Outcome.Yes;
        } }
{
    capture_is_read();
}

/// The listing of bytes that begin with records and then have a fault is the lines of these
/// records.
pub fn broken_capture_is_listed()
    ensures { (bytes : List ℕ) (records : List Record) (fault : CaptureFault) → IsBytes bytes →
        IsBrokenAfter bytes records fault →
        list_report bytes ≡ record {
          lines = lines_of records;
          closing = [];
          answer = Err (RunFault.Capture fault);
        } }
{
    fault_is_the_first();
}

/// A line is twenty fields with one space between them, and a line feed.
#[tactic(auto, unfolding(crate::specs::PacketLine::packet_line))]
pub fn line_has_twenty_fields()
    ensures joined { (head : RecordHead) (packet : Packet) →
        packet_line head packet ≡ join_with_byte 32 (packet_fields head packet) ++ codes "\n" }
    ensures twenty { (head : RecordHead) (packet : Packet) →
        length (packet_fields head packet) ≡ 20 }
{}
