//! Feeds of bytes that are lent, so that more than one run can be over them.

ghost use Rattle.std.specs.Prelude.{◌≡◌, ◌≤◌, Some, drop, length};
ghost use Rattle.summed_inputs.specs.Holding.{feed_of};

use crate::second::SummedInput;
use audit::SecondSource;
use byte_stream::{Feed, FeedFault};
use report::RunFault;
use std::alloc::Global;

/// Bytes that are lent. No pull fails.
#[derive(Debug, Drop)]
pub struct LentFeed<'a> {
    bytes: &'a [u8],
    /// How many bytes it gave.
    taken: usize,
    ghost within: { taken ≤ length bytes.now },
}

impl<'a> LentFeed<'a> {
    /// A feed of these bytes.
    pub fn new(bytes: &'a [u8]) -> LentFeed<'a>
        ensures { ⟦<LentFeed<'a> as Feed>⟧.state result ≡ feed_of bytes.now }
    {
        LentFeed { bytes, taken: 0 }
    }
}

impl<'a> Feed for LentFeed<'a> {
    ghost state = { λ s.
        record { remaining = Some (drop s.taken s.bytes.now); taken = s.taken; faults = 0 } };

    fn pull(&mut self, into: &mut [u8]) -> Result<usize, FeedFault> {
        let (_, rest) = self.bytes.split_at(self.taken);
        let count = into.len().min(rest.len());
        let (given, _) = rest.split_at(count);
        into[..count].copy_from_slice(given);
        self.taken += count;
        Ok(count)
    }

    fn faults(&self) -> u64 {
        0
    }
}

/// The bytes of a second input: none, if the question has no such input.
#[derive(Debug, Drop)]
pub(crate) struct LentSecond<'a>(pub(crate) LentFeed<'a>);

impl<'a, V: SummedInput> SecondSource<V> for LentSecond<'a> {
    ghost state = { λ second. ⟦<LentFeed<'a> as Feed>⟧.state second.0 };

    fn read_second(&mut self, alloc: Global) -> Result<V, RunFault> {
        V::read_from(alloc, &mut self.0)
    }
}
