//! A sink in memory, for tests.

ghost use Rattle.std.specs.Prelude.{◌≡◌, ◌+◌, ◌-◌, ◌^◌, ◌<◌, ◌≤◌, ◌||◌, [], length, min, nat_lt, Some, IfOk, OnErr, IsTrue, is_ok, is_err, true, false, vec_len};
ghost use Rattle.std.specs.Io.KnownBytes.{Keeps, WriteAppends};
ghost use Rattle.byte_stream.specs.Double.{sink_pace, sink_room, fails_to_finish};
ghost use Rattle.byte_stream.specs.Fault.{CountsFault};
ghost use Rattle.byte_stream.specs.State.{IsWritable};
ghost use Rattle.byte_stream.specs.Pace.{pace_of, most_of, is_failing, next_pace};
ghost use Rattle.byte_stream.specs.declared.pace.Cut.TheVariants.{Fixed};

use crate::pace::{Cut, Pace};
use crate::reserved::Reserved;
use crate::sink::{Sink, SinkFault};
use std::alloc::{AllocError, Global};

/// A sink in memory that takes a few bytes with each push and fails when it's asked to: for tests.
/// Its room is reserved when it's made, and a push that finds none left fails.
#[derive(Debug, Drop)]
pub struct TestSink {
    held: Reserved,
    pace: Pace,
    finish_fails: bool,
    usable: bool,
    faults: u64,
}

impl TestSink {
    /// An open sink with room for `room` bytes, that takes at most `most` of them with each push,
    /// or one if `most` is 0. The push with the number `failing` fails, the first being number 1,
    /// and no other does while there is room; `finish_fails` says whether `finish` fails. Only
    /// being out of memory is an error.
    pub fn new(
        alloc: Global,
        room: usize,
        most: usize,
        failing: Option<u64>,
        finish_fails: bool,
    ) -> Result<TestSink, AllocError>
        ensures state { IfOk result (λ sink. ⟦<TestSink as Sink>⟧.state sink
            ≡ record { contents = Some []; is_open = true; faults = 0 }) }
        ensures pace { IfOk result (λ sink. sink_pace sink ≡ pace_of (Fixed most) failing) }
        ensures room { IfOk result (λ sink. sink_room sink ≡ room) }
        ensures finish { IfOk result (λ sink. fails_to_finish sink ≡ finish_fails) }
    {
        Ok(TestSink {
            held: Reserved::new(alloc, room)?,
            pace: Pace::new(Cut::Fixed(most), failing),
            finish_fails,
            usable: true,
            faults: 0,
        })
    }

    /// What was pushed.
    pub fn bytes(&self) -> &[u8]
        ensures { (⟦<TestSink as Sink>⟧.state self.now).contents ≡ Some result.now }
    {
        self.held.bytes.as_slice()
    }

    fn fail(&mut self) -> SinkFault
        requires { self.old.faults < 2 ^ 64 - 1 }
        ensures { self.new ≡ record self.old { usable = false; faults = self.old.faults + 1 } }
    {
        self.usable = false;
        self.faults += 1;
        SinkFault
    }
}

impl Sink for TestSink {
    ghost state = { λ s.
        record { contents = Some s.held.bytes.items; is_open = s.usable; faults = s.faults } };

    fn push(&mut self, bytes: &[u8]) -> Result<usize, SinkFault>
        requires { IsWritable (⟦<TestSink as Sink>⟧.state self.old) }
        ensures within { IfOk result (λ n. n ≤ length bytes.now) }
        ensures goes_on { IfOk result (λ n. 0 < length bytes.now → 0 < n) }
        ensures known { WriteAppends (⟦<TestSink as Sink>⟧.state self.old).contents
            (⟦<TestSink as Sink>⟧.state self.new).contents result bytes.now }
        ensures stays_open { (⟦<TestSink as Sink>⟧.state self.new).is_open ≡ is_ok result }
        ensures counts_fault { CountsFault (is_err result)
            (⟦<TestSink as Sink>⟧.state self.old).faults
            (⟦<TestSink as Sink>⟧.state self.new).faults }

        // Which push fails, and how much any other takes.
        ensures fails { is_err result ≡ (is_failing (sink_pace self.old)
            || nat_lt (sink_room self.old)
            (min (most_of (sink_pace self.old)) (length bytes.now))) }
        ensures share { IfOk result (λ n. n ≡ min (most_of (sink_pace self.old))
            (length bytes.now)) }
        ensures pace { sink_pace self.new ≡ next_pace (sink_pace self.old) }
        ensures room { IfOk result (λ n. sink_room self.new ≡ sink_room self.old - n) }
        ensures finish { fails_to_finish self.new ≡ fails_to_finish self.old }
    {
        let Some(share) = self.pace.advance() else {
            return Err(self.fail());
        };
        let n = share.min(bytes.len());
        let (front, _) = bytes.split_at(n);
        if !self.held.put(front) {
            return Err(self.fail());
        }
        Ok(n)
    }

    fn finish(&mut self) -> Result<(), SinkFault>
        requires { IsWritable (⟦<TestSink as Sink>⟧.state self.old) }
        ensures known { Keeps (⟦<TestSink as Sink>⟧.state self.old).contents
            (⟦<TestSink as Sink>⟧.state self.new).contents }
        ensures closes { (⟦<TestSink as Sink>⟧.state self.new).is_open ≡ false }
        ensures counts_fault { CountsFault (is_err result)
            (⟦<TestSink as Sink>⟧.state self.old).faults
            (⟦<TestSink as Sink>⟧.state self.new).faults }
        ensures fails { is_err result ≡ fails_to_finish self.old }
    {
        if self.finish_fails {
            return Err(self.fail());
        }
        self.usable = false;
        Ok(())
    }

    fn faults(&self) -> u64 {
        self.faults
    }
}
