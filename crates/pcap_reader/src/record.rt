//! What stands at a place of a capture where a record may begin.

ghost use Rattle.std.specs.Prelude.{◌≡◌, ◌+◌, ◌<◌, ◌≤◌, length, take, drop, None, Some, OnOk, IfOk, IfErr, MatchResult};
ghost use Rattle.pcap_reader.specs.Capture.{IsLawfulHead, most_records};
ghost use Rattle.pcap_reader.specs.Fault.{IsRecordFault};
ghost use Rattle.pcap_reader.specs.Prefix.{ShowsHead, ShowsFault};
ghost use Rattle.pcap_reader.specs.Remaining.{head_at, head_fault, fault_at};
ghost use Rattle.pcap_reader.specs.declared.fault.CaptureFault.TheVariants.{TornRecord};

use crate::fault::CaptureFault;
use crate::field::u32_in;
use crate::format::{Format, RecordHead};

/// The bytes of a record's header.
pub(crate) const RECORD_HEADER: usize = 16;

/// The most bytes that a record may hold.
const MAX_CAPTURED: u32 = 262_144;

/// The most records of a capture.
const MAX_RECORDS: u32 = 4_000_000;

/// How many bytes show the next record's header, or that there may be none: one, after the last
/// record.
pub(crate) fn head_size(given: u32) -> usize
    ensures some { 1 ≤ result }
    ensures at_most { result ≤ 16 }
    ensures last { most_records ≤ given → result ≡ 1 }
    ensures header { given < most_records → result ≡ 16 }
{
    if given < MAX_RECORDS {
        RECORD_HEADER
    } else {
        1
    }
}

/// What a record's header says, or its fault.
fn read_head(
    format: Format,
    number: u32,
    place: u64,
    bytes: &[u8],
) -> Result<RecordHead, CaptureFault>
    requires { 16 ≤ length bytes.now }
    ensures { MatchResult result
        (λ head. (head_fault format place bytes.now ≡ None)
        × (head ≡ head_at format number place bytes.now))
        (λ fault. head_fault format place bytes.now ≡ Some fault) }
{
    let captured = u32_in(format.order, &bytes[8..]);
    if captured > MAX_CAPTURED {
        return Err(CaptureFault::TooLong(place));
    }
    let sub = u32_in(format.order, &bytes[4..]);
    if sub >= format.unit.per_second() {
        return Err(CaptureFault::BadFraction(place));
    }
    Ok(RecordHead {
        place,
        number,
        sec: u32_in(format.order, bytes),
        sub,
        unit: format.unit,
        captured,
        original: u32_in(format.order, &bytes[12..]),
    })
}

/// The header of the record at the front, or the fault that it shows. Fewer than 16 bytes must be
/// the last.
pub(crate) fn first_head(
    format: Format,
    number: u32,
    place: u64,
    bytes: &[u8],
) -> Result<RecordHead, CaptureFault>
    ensures few { OnOk result (number < most_records) }
    ensures long { OnOk result (16 ≤ length bytes.now) }
    ensures lawful { IfOk result IsLawfulHead }
    ensures number { IfOk result (λ head. head.number ≡ number) }
    ensures place { IfOk result (λ head. head.place ≡ place) }
    ensures shows { IfOk result (ShowsHead format number place bytes.now) }
    ensures record_fault { IfErr result IsRecordFault }
    ensures fault { IfErr result (ShowsFault format number place bytes.now) }
{
    if number >= MAX_RECORDS {
        return Err(CaptureFault::TooMany);
    }
    if bytes.len() < RECORD_HEADER {
        return Err(CaptureFault::TornRecord(place));
    }
    read_head(format, number, place, bytes)
}

/// The bytes of the record with this header, its header among them.
pub(crate) fn record_size(head: &RecordHead) -> usize
    ensures { result ≡ 16 + head.now.captured }
{
    RECORD_HEADER + head.captured as usize
}

/// Whether `held` bytes hold the record with this header, or it's cut off.
pub(crate) fn check_whole(head: &RecordHead, held: usize) -> Result<(), CaptureFault>
    ensures whole { OnOk result (16 + head.now.captured ≤ held) }
    ensures cut_off { IfErr result (λ fault. held < 16 + head.now.captured) }
    ensures torn { IfErr result (λ fault. fault ≡ TornRecord head.now.place) }
{
    if held < record_size(head) {
        return Err(CaptureFault::TornRecord(head.place));
    }
    Ok(())
}

/// The header of the record at the front of a file's rest, its bytes, and what follows it.
pub(crate) fn first_record<'a>(
    format: Format,
    number: u32,
    place: u64,
    bytes: &'a [u8],
) -> Result<(RecordHead, &'a [u8], &'a [u8]), CaptureFault>
    ensures stands { OnOk result (fault_at format number place bytes.now ≡ None) }
    ensures head { IfOk result (λ found. found.0 ≡ head_at format number place bytes.now) }
    ensures lent { IfOk result (λ found. found.1.now ≡ take found.0.captured (drop 16 bytes.now)) }
    ensures rest { IfOk result (λ found. found.2.now ≡ drop (16 + found.0.captured) bytes.now) }
    ensures whole { IfOk result (λ found. 16 + found.0.captured ≤ length bytes.now) }
    ensures lawful { IfOk result (λ found. IsLawfulHead found.0) }
    ensures fault { IfErr result (λ fault. fault_at format number place bytes.now ≡ Some fault) }
    ensures record_fault { IfErr result IsRecordFault }
{
    let head = first_head(format, number, place, bytes)?;
    check_whole(&head, bytes.len())?;
    let (_, rest) = bytes.split_at(RECORD_HEADER);
    let (lent, rest) = rest.split_at(head.captured as usize);
    Ok((head, lent, rest))
}
