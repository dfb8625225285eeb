//! Texts on their way to a sink.

use crate::expectation::{assert_equal, assert_ok};
use byte_stream::TestSink;
use report::{Made, Outcome, RunFault, publish};
use std::alloc::Global;
use std::process::Abort;

/// A text of six bytes goes to a sink that takes so much at once, and whose push of this number or
/// whose `finish` fails: the answer, and how many bytes went out.
fn goes_out(
    rt: &impl Abort,
    alloc: Global,
    (most, failing, finish_fails): (usize, Option<u64>, bool),
    answer: Result<Outcome, RunFault>,
    held: usize,
) {
    let mut out = assert_ok(rt, TestSink::new(alloc, 100, most, failing, finish_fails));
    let made = Ok(Made {
        text: assert_ok(rt, b"a text".as_slice().to_vec(alloc)),
        outcome: Outcome::No,
    });
    assert_equal(rt, publish(&mut out, &made), answer);
    assert_equal(rt, out.bytes().len(), held);
}

/// A whole text goes out, or as much of it as the answer says.
#[test]
fn publications(rt: HostRuntime) {
    let alloc = rt.alloc();
    goes_out(&rt, alloc, (100, None, false), Ok(Outcome::No), 6);
    goes_out(&rt, alloc, (4, Some(2), false), Err(RunFault::Write(4)), 4);
    goes_out(&rt, alloc, (4, None, true), Err(RunFault::Write(6)), 6);
}
