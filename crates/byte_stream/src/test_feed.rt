//! A feed for tests.

ghost use Rattle.std.specs.Prelude.{◌≡◌, ◌≤◌, length, min, Some, IfOk, IfSome, is_err};
ghost use Rattle.std.specs.Io.KnownBytes.{ReadConsumes};
ghost use Rattle.byte_stream.specs.Double.{feed_pace};
ghost use Rattle.byte_stream.specs.Fault.{CountsFault};
ghost use Rattle.byte_stream.specs.Intake.{CountsBytes};
ghost use Rattle.byte_stream.specs.State.{IsReadable};
ghost use Rattle.byte_stream.specs.Pace.{pace_of, most_of, is_failing, next_pace};

use crate::feed::{Feed, FeedFault};
use crate::pace::{Cut, Pace};

/// A feed for tests: bytes that lie in memory, given in small parts, with one pull that fails.
#[derive(Debug, Drop)]
pub struct TestFeed<'a> {
    rest: &'a [u8],
    pace: Pace,
    /// How many bytes it gave, or `u64::MAX` once they are that many.
    taken: u64,
    faults: u64,
}

impl<'a> TestFeed<'a> {
    /// A feed of these bytes. Each pull gives as many of them as `cut` says, as far as there are
    /// bytes and room. The pull with the number `failing` fails, the first being number 1, and no
    /// other does.
    pub fn new(bytes: &'a [u8], cut: Cut, failing: Option<u64>) -> TestFeed<'a>
        ensures state { ⟦<TestFeed<'a> as Feed>⟧.state result
            ≡ record { remaining = Some bytes.now; taken = 0; faults = 0 } }
        ensures pace { feed_pace result ≡ pace_of cut failing }
    {
        TestFeed {
            rest: bytes,
            pace: Pace::new(cut, failing),
            taken: 0,
            faults: 0,
        }
    }
}

impl<'a> Feed for TestFeed<'a> {
    ghost state = { λ s.
        record { remaining = Some s.rest.now; taken = s.taken; faults = s.faults } };

    fn pull(&mut self, into: &mut [u8]) -> Result<usize, FeedFault>
        requires { IsReadable (⟦<TestFeed<'a> as Feed>⟧.state self.old) }
        ensures within { IfOk result (λ n. n ≤ length into.new) }
        ensures known { ReadConsumes (⟦<TestFeed<'a> as Feed>⟧.state self.old).remaining
            (⟦<TestFeed<'a> as Feed>⟧.state self.new).remaining result into.new }
        ensures counts_bytes { CountsBytes result
            (⟦<TestFeed<'a> as Feed>⟧.state self.old).taken
            (⟦<TestFeed<'a> as Feed>⟧.state self.new).taken }
        ensures counts_fault { CountsFault (is_err result)
            (⟦<TestFeed<'a> as Feed>⟧.state self.old).faults
            (⟦<TestFeed<'a> as Feed>⟧.state self.new).faults }

        // Which pull fails, and how much any other gives.
        ensures fails { is_err result ≡ is_failing (feed_pace self.old) }
        ensures share { IfOk result (λ n. IfSome (⟦<TestFeed<'a> as Feed>⟧.state self.old).remaining
            (λ rest. n ≡ min (most_of (feed_pace self.old))
            (min (length into.new) (length rest)))) }
        ensures pace { feed_pace self.new ≡ next_pace (feed_pace self.old) }
    {
        let Some(share) = self.pace.advance() else {
            self.faults += 1;
            return Err(FeedFault);
        };
        let count = share.min(into.len()).min(self.rest.len());
        let (given, rest) = self.rest.split_at(count);
        into[..count].copy_from_slice(given);
        self.rest = rest;
        self.taken = self.taken.saturating_add(count as u64);
        Ok(count)
    }

    fn faults(&self) -> u64 {
        self.faults
    }
}
