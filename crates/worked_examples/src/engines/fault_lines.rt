//! The lines of faults that no run of the program brings about here.

use crate::expectation::{assert_equal, assert_ok, table};
use RunFault::{
    Capture, Certificate, Claim, Device, Exchanges, Memory, Refutation, Sums, TooBig, Write,
};
use certificate::{CertificateFault, RefutationFault};
use claim_file::ClaimFault;
use cover_certificate::{AnyFault, CoverFault};
use pcap_reader::CaptureFault;
use report::{Input, RunFault, SumsFault, fault_line, status};

/// Each fault, and what its line says after the program's name.
const LINES: [(RunFault, &str); 12] = table! {
    Capture(CaptureFault::BadFraction(1_048_640_000_008)),
        "capture 7 bad-fraction at 1048640000008";
    Capture(CaptureFault::Read), "capture 9 read";
    Capture(CaptureFault::Memory), "capture 10 memory";
    Capture(CaptureFault::Failed), "capture 11 failed";
    Claim(ClaimFault::Memory), "claim 7 memory";
    Certificate(AnyFault::OfPieces(CertificateFault::TooManyEntries(99_999))),
        "certificate 4 too-many-entries piece 99999";
    Certificate(AnyFault::OfPieces(CertificateFault::Memory)), "certificate 6 memory";
    Certificate(AnyFault::ByCovers(CoverFault::TooManyConflicts)),
        "certificate 3 too-many-conflicts";
    Certificate(AnyFault::ByCovers(CoverFault::CaseShape(63))), "certificate 6 case 63";
    Refutation(RefutationFault::Memory), "refutation 3 memory";
    TooBig(Input::Capture), "too-big capture";
    Write(u64::MAX), "device output after 18446744073709551615";
};

#[test]
fn lines(rt: HostRuntime) {
    for (fault, words) in LINES {
        let line = assert_ok(&rt, fault_line(rt.alloc(), &fault));
        assert_equal(&rt, line.strip_prefix("ntpaudit: "), Some(words));
    }
}

/// Each fault's number, exit status and line.
const FAULTS: [(RunFault, u8, u8, &str); 6] = table! {
    Exchanges, 5, 2, "ntpaudit: exchanges over 1000000";
    TooBig(Input::Claim), 7, 2, "ntpaudit: too-big claim";
    Device(Input::Capture), 8, 4, "ntpaudit: device capture";
    Write(459), 9, 4, "ntpaudit: device output after 459";
    Memory, 10, 3, "ntpaudit: memory";
    Sums(SumsFault::Differ(Input::Certificate)), 11, 2, "ntpaudit: sums differ certificate";
};

#[test]
fn faults(rt: HostRuntime) {
    for (fault, number, code, line) in FAULTS {
        let told = assert_ok(&rt, fault_line(rt.alloc(), &fault));
        let seen = (told.as_str(), fault.number(), status(&Err(fault)));
        assert_equal(&rt, seen, (line, number, code));
    }
}
