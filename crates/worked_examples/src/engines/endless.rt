//! Inputs that never end: how many bytes are taken of each.

use crate::engines::trial::REFUTATION;
use crate::expectation::{assert_equal_at, assert_ok, table};
use Asked::{Check, List, Refute};
use audit::{run_check, run_refute};
use byte_stream::{ReadFeed, Sink, TestSink};
use listing::run_list;
use pcap_reader::CaptureFault;
use report::{Input, RunFault};
use std::alloc::Global;
use std::io::{self, Read};
use std::process::Abort;
use vectors::{C1, K1};

/// A device that gives a text and then so many blanks, and counts what it gave.
#[derive(Drop)]
struct Device<'a> {
    text: &'a [u8],
    blanks: u64,
    given: u64,
}

impl Read for Device<'_> {
    fn read(&mut self, buf: &mut [u8]) -> io::Result<usize> {
        let mut count = self.text.len().min(buf.len());
        if count > 0 {
            let (front, rest) = self.text.split_at(count);
            buf[..count].copy_from_slice(front);
            self.text = rest;
        } else {
            count = self.blanks.min(buf.len() as u64) as usize;
            buf[..count].fill(b' ');
            self.blanks = self.blanks.saturating_sub(count as u64);
        }
        self.given = self.given.saturating_add(count as u64);
        Ok(count)
    }
}

/// What is asked of a capture, and of a claim and a second input before it.
#[derive(Clone, Copy, Debug)]
enum Asked {
    List,
    Check,
    Refute,
}

/// A text, and how many blanks stand behind it.
type Text<'a> = (&'a str, u64);

/// A run over a capture that never ends is refused, and so many bytes are taken of its inputs.
fn is_refused(
    rt: &impl Abort,
    alloc: Global,
    asked: Asked,
    [claim, second]: [Text<'_>; 2],
    (fault, taken): (RunFault, [u64; 3]),
) {
    let [mut claim, mut second, mut capture] = [claim, second, ENDLESS].map(|(
        text,
        blanks,
    )| Device {
        text: text.as_bytes(),
        blanks,
        given: 0,
    });
    let mut out = assert_ok(rt, TestSink::new(alloc, 1000, 1000, None, false));
    let mut first = ReadFeed::new(&mut claim);
    let mut next = ReadFeed::new(&mut second);
    let last = ReadFeed::new(&mut capture);
    let (_, given) = match asked {
        List => run_list(alloc, last, &mut out),
        Check => run_check(alloc, &mut first, last, &mut next, &mut out),
        Refute => run_refute(alloc, &mut first, last, &mut next, &mut out),
    };
    let seen = (
        given,
        [claim.given, second.given, capture.given],
        out.faults(),
    );
    assert_equal_at(rt, seen, (Err(fault), taken, 0), asked);
}

const ENDLESS: Text<'static> = ("", u64::MAX);

const CLAIM: u64 = C1.len() as u64;

/// A header that isn't one.
const MAGIC: RunFault = RunFault::Capture(CaptureFault::Magic);

/// What is asked, a claim, a second input, the refusal, and how many bytes are taken of each input:
/// one past its limit of a claim, a certificate and a refutation, none of what is read after it,
/// and one buffer of a capture whose header is refused. No capture ends.
const ENDLESS_RUNS: [(Asked, [Text<'static>; 2], RunFault, [u64; 3]); 7] = table! {
    List, [ENDLESS, ENDLESS], MAGIC, [0, 0, 524_288];
    Check, [ENDLESS, ENDLESS], RunFault::TooBig(Input::Claim), [65_537, 0, 0];
    Refute, [ENDLESS, ENDLESS], RunFault::TooBig(Input::Claim), [65_537, 0, 0];
    Check, [(C1, 0), ENDLESS], RunFault::TooBig(Input::Certificate), [CLAIM, 134_217_729, 0];
    Refute, [(C1, 0), ENDLESS], RunFault::TooBig(Input::Refutation), [CLAIM, 65_537, 0];
    Check, [(C1, 0), (K1, 0)], MAGIC, [CLAIM, K1.len() as u64, 524_288];
    Refute, [(C1, 0), (REFUTATION, 0)], MAGIC, [CLAIM, REFUTATION.len() as u64, 524_288];
};

#[test]
fn endless_inputs(rt: HostRuntime) {
    for (asked, texts, fault, taken) in ENDLESS_RUNS {
        is_refused(&rt, rt.alloc(), asked, texts, (fault, taken));
    }
}
