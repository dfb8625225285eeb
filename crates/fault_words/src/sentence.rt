//! The sentence of each fault: a table.

ghost use Rattle.std.specs.Prelude.{T};
ghost use Rattle.fault_words.specs.Sentence.{IsSentence, are_words};

use crate::claim_field::field_sentence;
use crate::remedy::{self, SEE_LIMITS};
use certificate::{CertificateFault, RefutationFault};
use claim_file::ClaimFault;
use cover_certificate::{AnyFault, CoverFault};
use pcap_reader::CaptureFault;
use reading_time::TimesFault;
use report::{RunFault, SumsFault};

/// What is said of a fault.
#[derive(Clone, Copy, Debug)]
pub struct Sentence {
    /// What is wrong, behind the name of the input whose fault it is.
    pub wrong: &'static str,
    /// What to do, in which `remedy::filled` puts the names that are known in place of its marks.
    pub remedy: &'static str,
}

/// A sentence of these words.
pub(crate) fn says(wrong: &'static str, remedy: &'static str) -> Sentence
    requires wrong { T (are_words wrong.now) }
    requires remedy { T (are_words remedy.now) }
    ensures { IsSentence result }
{
    Sentence { wrong, remedy }
}

/// That of want of memory for an input.
fn no_memory() -> Sentence
    ensures { IsSentence result }
{
    says("needs more memory than the system gives", SEE_LIMITS)
}

/// That of each fault of a capture.
fn capture_sentence(fault: &CaptureFault) -> Sentence
    ensures { IsSentence result }
{
    match fault {
        CaptureFault::TornHeader => says(
            "is shorter than the 24 bytes of a capture's header",
            "record again, see that tcpdump says `listening on`, and stop it by Ctrl-C",
        ),
        CaptureFault::Magic => says(
            "isn't a classic pcap file",
            "unpack it, or rewrite it: editcap -F pcap @ new.pcap (-F nsecpcap for nanoseconds)",
        ),
        CaptureFault::Version => says(
            "isn't of version 2.4 of the pcap format",
            "record again, or rewrite it: editcap -F pcap @ new.pcap (-F nsecpcap for nanoseconds)",
        ),
        CaptureFault::Link => says(
            "holds other frames than Ethernet's",
            "record on one Ethernet interface by its name, not with -i any",
        ),
        CaptureFault::TornRecord(_) => says(
            "ends inside the record at that byte",
            "record again and stop it by Ctrl-C, or keep what is before: head -c # @ > new.pcap",
        ),
        CaptureFault::TooLong(_) => says(
            "has over 262144 bytes in the record at that byte",
            "record without -s, fetch the file again, or join by mergecap in place of cat: \
             mergecap -F pcap -w new.pcap FIRST SECOND (-F nsecpcap for nanoseconds)",
        ),
        CaptureFault::BadFraction(_) => says(
            "has a second or more after the point in the time of the record at that byte",
            "fetch the file again, or join by mergecap in place of cat: \
             mergecap -F pcap -w new.pcap FIRST SECOND (-F nsecpcap for nanoseconds)",
        ),
        CaptureFault::TooMany => says("has over 4000000 records", remedy::CUT_BY_RECORDS),
        CaptureFault::Read => says("can't be read", remedy::SEE_WHO_MAY_READ),
        CaptureFault::Memory => no_memory(),
        CaptureFault::Failed => says("had a fault before", "read it again from its beginning"),
    }
}

/// That of each fault of a claim; of one of its fields what is known of the field is said instead.
fn claim_sentence(fault: &ClaimFault) -> Sentence
    ensures { IsSentence result }
{
    match fault {
        ClaimFault::Json => says("isn't JSON", "mend it there: python3 -m json.tool @"),
        ClaimFault::Field(code) => field_sentence(*code),
        ClaimFault::Address => says(
            "has an address that isn't an IPv4 address",
            remedy::WRITE_AN_ADDRESS,
        ),
        ClaimFault::Time => says("has a time that isn't one", remedy::WRITE_A_TIME),
        ClaimFault::Range => says(
            "has a number out of its range, or \"from\" after \"to\"",
            "man ntpaudit has the ranges",
        ),
        ClaimFault::RepeatedServer => says(
            "has an address twice among its servers, or the client among them",
            "name each server once, and the client never",
        ),
        ClaimFault::Memory => no_memory(),
        ClaimFault::Groups => says(
            "has groups that don't hold each server exactly once",
            "number the servers from 0, and put each into one group",
        ),
    }
}

/// That of each fault of a certificate of pieces.
fn pieces_sentence(fault: &CertificateFault) -> Sentence
    ensures { IsSentence result }
{
    match fault {
        CertificateFault::Json => says("isn't JSON", remedy::MAKE_ANEW),
        CertificateFault::Top => says("isn't a certificate", remedy::ORDER_OF_FILES),
        CertificateFault::Shape(_) => says("has another form in that piece", remedy::MAKE_ANEW),
        CertificateFault::TooManyEntries(_) => {
            says("has over 32 entries in that piece", remedy::MAKE_ANEW)
        }
        CertificateFault::TooManyPieces => says("has over 100000 pieces", remedy::MAKE_ANEW),
        CertificateFault::Memory => no_memory(),
    }
}

/// That of each fault of a certificate by covers.
fn covers_sentence(fault: &CoverFault) -> Sentence
    ensures { IsSentence result }
{
    match fault {
        CoverFault::Json => says("isn't JSON", remedy::MAKE_ANEW),
        CoverFault::Top => says("isn't a certificate", remedy::ORDER_OF_FILES),
        CoverFault::TooManyConflicts => says("has over 528 conflicts", remedy::MAKE_ANEW),
        CoverFault::Conflicts => says("has a conflict of another form", remedy::MAKE_ANEW),
        CoverFault::TooManyCases => says("has over 64 cases", remedy::MAKE_ANEW),
        CoverFault::CaseShape(_) => says("has another form in that case", remedy::MAKE_ANEW),
        CoverFault::TooManyPieces => says("has over 100000 pieces", remedy::MAKE_ANEW),
        CoverFault::Shape(_) => says("has another form in that piece", remedy::MAKE_ANEW),
        CoverFault::TooManyEntries(_) => {
            says("has over 32 entries in that piece", remedy::MAKE_ANEW)
        }
        CoverFault::Memory => no_memory(),
    }
}

/// That of each fault of a certificate of either form.
fn certificate_sentence(fault: &AnyFault) -> Sentence
    ensures { IsSentence result }
{
    match fault {
        AnyFault::OfPieces(fault) => pieces_sentence(fault),
        AnyFault::ByCovers(fault) => covers_sentence(fault),
    }
}

/// That of each fault of a refutation.
fn refutation_sentence(fault: &RefutationFault) -> Sentence
    ensures { IsSentence result }
{
    match fault {
        RefutationFault::Json => says("isn't JSON", remedy::MAKE_ANEW),
        RefutationFault::Shape => says("isn't a refutation", remedy::ORDER_OF_FILES),
        RefutationFault::Memory => no_memory(),
    }
}

/// That of each fault of readings.
fn times_sentence(fault: &TimesFault) -> Sentence
    ensures { IsSentence result }
{
    match fault {
        TimesFault::Time(_) => says(
            "has no time in that line",
            "write each as 2026-11-22T06:46:09.25Z or 1795329969.25, from 1970 to 2106: no comma, \
             no :60, no blank, no empty line, and line feeds without carriage returns",
        ),
        TimesFault::TooMany => says("has over 1000000 lines", "cut it: split -l 1000000 @ part-"),
        TimesFault::Memory => no_memory(),
    }
}

/// That of each fault of sums.
fn sums_sentence(fault: &SumsFault) -> Sentence
    ensures { IsSentence result }
{
    match fault {
        SumsFault::Form(_) => says(
            "has that line, which sha256sum doesn't write, or which contradicts one before it",
            "take the line out, or write it anew of files that you trust: sha256sum & > new.sums",
        ),
        SumsFault::Missing(_) => says(
            "has no line of this very name in the file of sums",
            "call sha256sum in the same folder, with the same words",
        ),
        SumsFault::Differ(_) => says(
            "has another SHA-256 than the file of sums gives it",
            "fetch it again; sha256sum -c % says which files differ; take no new sum of it",
        ),
    }
}

/// The sentence of a fault.
pub fn sentence_of(fault: &RunFault) -> Sentence
    ensures has_words { IsSentence result }
{
    match fault {
        RunFault::Capture(fault) => capture_sentence(fault),
        RunFault::Claim(fault) => claim_sentence(fault),
        RunFault::Certificate(fault) => certificate_sentence(fault),
        RunFault::Refutation(fault) => refutation_sentence(fault),
        RunFault::Times(fault) => times_sentence(fault),
        RunFault::Sums(fault) => sums_sentence(fault),
        RunFault::Exchanges => says(
            "has over 1000000 exchanges of the claim's client",
            "cut it by the hour, and claim each part's span by itself: \
             editcap -F pcap -i 3600 @ new.pcap (-F nsecpcap for nanoseconds)",
        ),
        RunFault::Pieces => says(
            "needs over 100000 pieces",
            "claim parts of the span; or for find and envelope take a larger --step, for settle \
             a wider bound",
        ),
        RunFault::TooBig(_) => says("is larger than such a file may be", remedy::ORDER_OF_FILES),
        RunFault::Device(_) => says("can't be read", remedy::SEE_WHO_MAY_READ),
        RunFault::Write(_) => says(
            "the output can't be written: the disk is full, or its reader went away",
            "make room, and call again; behind head nothing is wrong",
        ),
        RunFault::Memory => says("the system gives no more memory", SEE_LIMITS),
    }
}
