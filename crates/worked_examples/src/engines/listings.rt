//! Listings: the lines of the worked capture, and with devices that fail.

use crate::engines::trial::{Answer, lines_of};
use crate::expectation::{assert_equal, assert_equal_at, assert_ok, table};
use CaptureFault::{TornHeader, TornRecord};
use byte_stream::{Cut, Sink, TestFeed, TestSink};
use listing::{list_from, run_list};
use pcap_reader::{CaptureFault, Feed, Whole};
use report::{Input, Outcome, RunFault, output_buffer};
use std::alloc::Global;
use std::process::Abort;
use vectors::V1;

const LINE_0: &str = "0 1000000000.000000 192.0.2.10:49152 192.0.2.1:123 v4 m3 l0 s0 p0 \
    0 0 00000000 0000000000000000 0000000000000000 0000000000000000 1122334455667788 \
    4294967296000000000 4294967296000004295 - 10193815036915775368\n";

const LINE_1: &str = "1 1000000000.020000 192.0.2.1:123 192.0.2.10:49152 v4 m4 l0 s1 p-32 \
    0 0 47505300 bf45488000000000 1122334455667788 bf454880028f5c29 bf454880028f5c29 \
    4294967296085899345 4294967296085903641 4294967296042949673 4294967296042949673\n";

const NO_RECORD: &str = "records 0 packets 0\n";

const CLOSING: &str = "records 2 packets 2\n";

/// How a feed cuts `V1`, and how many pulls that takes at least.
const CUTS: [(Cut, u64); 3] = [
    (Cut::Fixed(1), 236),
    (Cut::Growing, 22),
    (Cut::Fixed(usize::MAX), 1),
];

/// The listing of a file is these lines and this answer, from a feed that cuts the bytes so.
fn lists_cut(
    rt: &impl Abort,
    alloc: Global,
    file: &[u8],
    cut: Cut,
    (lines, wanted): (&[&str], Answer),
) {
    let mut out = assert_ok(rt, TestSink::new(alloc, 1000, 1000, None, false));
    let (feed, answer) = run_list(alloc, TestFeed::new(file, cut, None), &mut out);
    let count = lines_of(rt, out.bytes(), lines);
    let seen = (answer, count, feed.faults(), out.faults());
    assert_equal_at(rt, seen, (wanted, lines.len(), 0, 0), (cut, file.len()));
}

/// The listing is the same however the feed cuts the bytes, and from memory.
#[test]
fn lists(rt: HostRuntime) {
    let wanted: (&[&str], Answer) = (&[LINE_0, LINE_1, CLOSING], Ok(Outcome::Yes));
    for (cut, _) in CUTS {
        lists_cut(&rt, rt.alloc(), &V1, cut, wanted);
    }
    let mut source = assert_ok(&rt, Whole::begin(&V1));
    let mut out = assert_ok(&rt, TestSink::new(rt.alloc(), 1000, 1000, None, false));
    let mut buffer = assert_ok(&rt, output_buffer(rt.alloc()));
    let answer = list_from(&mut source, &mut buffer, &mut out);
    let count = lines_of(&rt, out.bytes(), wanted.0);
    assert_equal(&rt, (answer, count), (wanted.1, 3));
}

/// A listing in which one pull fails: no closing line goes out. If each pull gives one byte, the
/// lines of all records that were whole have gone out: a capture is shown as it comes. Whether it
/// got to that pull: if not, it goes well.
fn fails(rt: &impl Abort, alloc: Global, cut: Cut, failing: u64) -> bool {
    let mut out = assert_ok(rt, TestSink::new(alloc, 1000, 1000, None, false));
    let source = TestFeed::new(&V1, cut, Some(failing));
    let (feed, answer) = run_list(alloc, source, &mut out);
    let count = lines_of(rt, out.bytes(), &[LINE_0, LINE_1, CLOSING]);
    if feed.faults() == 0 {
        assert_equal(rt, (answer, count), (Ok(Outcome::Yes), 3));
        return false;
    }
    let device = Err(RunFault::Device(Input::Capture));
    let seen = (answer, feed.faults(), out.faults());
    assert_equal_at(rt, seen, (device, 1, 0), (cut, failing));
    let whole = usize::from(failing > 130) + usize::from(failing > 236);
    let is_so_far = count < 3 && (cut != Cut::Fixed(1) || count == whole);
    assert!(rt; is_so_far, "{cut:?} {failing}");
    true
}

/// Each pull fails in turn, until a run meets none that does, which isn't before all was given.
#[test]
fn pulls_that_fail(rt: HostRuntime) {
    for (cut, least) in CUTS {
        let mut failed = 0;
        for failing in 1..1000 {
            if !fails(&rt, rt.alloc(), cut, failing) {
                break;
            }
            failed = failing;
        }
        assert!(rt; failed >= least, "{cut:?} {failed}");
    }
}

/// The first 100 bytes of `LINE_0`.
const BEGIN: &str = "0 1000000000.000000 192.0.2.10:49152 192.0.2.1:123 v4 m3 l0 s0 p0 \
    0 0 00000000 0000000000000000 0000";

/// How much of `V1` there is, how much the sink takes at once, which push and whether `finish`
/// fails, and what is answered and has gone out: a sink that can't be finished, and what a fault
/// found before outlives.
const SINKS: [(usize, (usize, Option<u64>, bool), RunFault, &str); 7] = table! {
    24, (7, Some(2), false), RunFault::Write(7), "records";
    24, (7, None, true), RunFault::Write(20), NO_RECORD;
    24, (7, Some(2), true), RunFault::Write(7), "records";
    25, (7, None, true), RunFault::Capture(TornRecord(24)), "";
    23, (7, None, true), RunFault::Capture(TornHeader), "";
    235, (1000, None, true), RunFault::Capture(TornRecord(130)), LINE_0;
    235, (100, Some(2), false), RunFault::Write(100), BEGIN;
};

#[test]
fn sinks_that_fail(rt: HostRuntime) {
    for (length, (most, failing, finish_fails), fault, held) in SINKS {
        let alloc = rt.alloc();
        let mut out = assert_ok(&rt, TestSink::new(alloc, 1000, most, failing, finish_fails));
        let feed = TestFeed::new(V1.get(..length).unwrap_or(&V1), Cut::Fixed(1), None);
        let (_, answer) = run_list(alloc, feed, &mut out);
        let seen = (answer, out.bytes(), out.faults());
        assert_equal_at(&rt, seen, (Err(fault), held.as_bytes(), 1), (length, most));
    }
}
