//! Feeds and sinks: what is tried again, and what isn't.

ghost use Rattle.std.specs.Prelude.{◌≤◌, IfOk};

use crate::expectation::{assert_equal, assert_equal_at, table};
use ErrorKind::{Interrupted, Other, WouldBlock};
use Step::{Fails, Takes};
use byte_stream::{Feed, ReadFeed, Sink, WriteSink};
use std::io::{self, ErrorKind, Read, Write};
use std::process::Abort;

/// What a call of a device does.
#[derive(Clone, Copy, Debug)]
enum Step {
    Takes(usize),
    Fails(ErrorKind),
}

/// A device that does these steps in turn, and nothing after them, and counts the calls.
#[derive(Drop)]
struct Script<'a> {
    steps: &'a [Step],
    calls: usize,
}

impl<'a> Script<'a> {
    fn of(steps: &'a [Step]) -> Self {
        Script { steps, calls: 0 }
    }

    fn answer(&mut self, room: usize) -> io::Result<usize>
        ensures { IfOk result (λ n. n ≤ room) }
    {
        let step = self.steps.get(self.calls).copied();
        self.calls = self.calls.saturating_add(1);
        match step {
            Some(Takes(count)) => Ok(count.min(room)),
            Some(Fails(kind)) => Err(io::Error::from(kind)),
            None => Ok(0),
        }
    }
}

impl Read for Script<'_> {
    fn read(&mut self, buf: &mut [u8]) -> io::Result<usize> {
        self.answer(buf.len())
    }
}

impl Write for Script<'_> {
    fn write(&mut self, buf: &[u8]) -> io::Result<usize> {
        self.answer(buf.len())
    }

    fn flush(&mut self) -> io::Result<()> {
        self.answer(0)?;
        Ok(())
    }
}

/// Whether a call goes well, the faults that are counted then, and the calls of the device.
type Call = (bool, u64, usize);

/// A pull on a device that does these steps.
fn pull(steps: &[Step]) -> Call {
    let mut device = Script::of(steps);
    let mut feed = ReadFeed::new(&mut device);
    let pulled = feed.pull(&mut [0; 4]);
    (pulled.is_ok(), feed.faults(), device.calls)
}

/// A push on it.
fn push(steps: &[Step]) -> Call {
    let mut device = Script::of(steps);
    let mut sink = WriteSink::new(&mut device);
    let pushed = sink.push(b"pushed");
    (pushed.is_ok(), sink.faults(), device.calls)
}

/// A `finish` on it.
fn finish(steps: &[Step]) -> Call {
    let mut device = Script::of(steps);
    let mut sink = WriteSink::new(&mut device);
    let finished = sink.finish();
    (finished.is_ok(), sink.faults(), device.calls)
}

/// A pull, a push and a `finish` on a device that does these steps: whether it goes well, and how
/// often it calls the device.
fn goes(rt: &impl Abort, steps: &[Step], is_well: bool, calls: usize) {
    let wanted = (is_well, u64::from(!is_well), calls);
    let seen = [pull(steps), push(steps), finish(steps)];
    assert_equal_at(rt, seen, [wanted; 3], steps);
}

/// What a device does, whether a call of it goes well, and how often it's called.
const STEPS: [([Step; 2], bool, usize); 5] = table! {
    [Takes(2), Takes(1)], true, 1;
    [Fails(Other), Takes(2)], false, 1;
    [Fails(WouldBlock), Takes(2)], false, 1;
    [Fails(Interrupted), Takes(2)], true, 2;
    [Fails(Interrupted), Fails(Other)], false, 2;
};

/// A call that fails is a fault at once, though the next one would succeed. An interrupted one is
/// tried again. This is so of a read, of a write and of a flush, by which a sink is finished.
#[test]
fn failures(rt: HostRuntime) {
    for (steps, is_well, calls) in STEPS {
        goes(&rt, &steps, is_well, calls);
    }
}

/// A device that is interrupted 999 times gets to work at the next call. After 1,000 interruptions
/// the call has failed, and isn't made again.
#[test]
fn interruptions(rt: HostRuntime) {
    let mut steps = [Fails(Interrupted); 1_001];
    steps[1_000] = Takes(2);
    goes(&rt, &steps, false, 1_000);
    steps[999] = Takes(2);
    goes(&rt, &steps, true, 1_000);
}

/// A write that takes nothing is a failure too.
#[test]
fn no_progress(rt: HostRuntime) {
    let (is_well, _, calls) = push(&[Takes(0), Takes(2)]);
    assert_equal(&rt, (is_well, calls), (false, 1));
}
