//! Laws of captures: what is read of bytes is what they spell. A law is a function that does
//! nothing: its contract is the law, for every list of bytes.

ghost use Rattle.std.specs.Prelude.{◌≡◌, ◌↔◌, ◌++◌, ◌⊎◌, ℕ, List, Some, None, Ok, Err};
ghost use Rattle.pcap_reader.specs.declared.fault.CaptureFault.{CaptureFault};
ghost use Rattle.pcap_reader.specs.declared.format.Format.{Format};
ghost use Rattle.byte_stream.specs.Bytes.{IsBytes};
ghost use Rattle.pcap_reader.specs.Broken.{IsBrokenAfter, HasHeaderFault, HasFault};
ghost use Rattle.pcap_reader.specs.Capture.{Record, IsHeader, IsCapture};
ghost use Rattle.pcap_reader.specs.Remaining.{capture_of};

/// A capture is read as its records, and then a whole end.
pub fn capture_is_read()
    ensures { (bytes : List ℕ) (format : Format) (records : List Record) →
        IsCapture bytes format records →
        capture_of bytes ≡ Ok (record { records = records; fault = None }) }
{}

/// Bytes from which records are read, and then a whole end, are a capture of these records.
#[tactic(auto, using(crate::proofs::File::what_is_read))]
pub fn what_is_read_is_a_capture()
    ensures { (bytes : List ℕ) (records : List Record) → IsBytes bytes →
        capture_of bytes ≡ Ok (record { records = records; fault = None }) →
        (format : Format) × IsCapture bytes format records }
{}

/// Bytes are a capture in one format and of one list of records at most.
pub fn one_reading()
    ensures { (bytes : List ℕ) (format other_format : Format) (records others : List Record) →
        IsCapture bytes format records → IsCapture bytes other_format others →
        (format ≡ other_format) × (records ≡ others) }
{}

/// Records are read, and then a fault, exactly if the bytes begin with these records and with no
/// longer list, something is left, and the fault is the first that applies to it.
pub fn fault_is_the_first()
    ensures { (bytes : List ℕ) (records : List Record) (fault : CaptureFault) → IsBytes bytes →
        (capture_of bytes ≡ Ok (record { records = records; fault = Some fault }))
        ↔ IsBrokenAfter bytes records fault }
{}

/// A file is refused exactly for the first fault of its header, and then begins with no lawful
/// header.
pub fn header_fault()
    ensures first { (bytes : List ℕ) (fault : CaptureFault) → IsBytes bytes →
        (capture_of bytes ≡ Err fault) ↔ HasHeaderFault bytes fault }
    ensures no_header { (bytes : List ℕ) (fault : CaptureFault) (format : Format)
        (header rest : List ℕ) →
        capture_of bytes ≡ Err fault → IsHeader format header → ¬ (bytes ≡ header ++ rest) }
{}

/// Any bytes are a capture or have one fault, and never both.
pub fn capture_or_one_fault()
    ensures either { (bytes : List ℕ) → IsBytes bytes →
        ((format : Format) × ((records : List Record) × IsCapture bytes format records))
        ⊎ ((fault : CaptureFault) × HasFault bytes fault) }
    ensures not_both { (bytes : List ℕ) (format : Format) (records : List Record)
        (fault : CaptureFault) →
        IsBytes bytes → IsCapture bytes format records → ¬ HasFault bytes fault }
    ensures one { (bytes : List ℕ) (fault other : CaptureFault) → IsBytes bytes →
        HasFault bytes fault → HasFault bytes other → fault ≡ other }
{}
