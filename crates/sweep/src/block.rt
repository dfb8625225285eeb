//! The first index that reaches a height, found by blocks of indices.

ghost use Rattle.std.specs.Prelude.{◌≡◌, ℕ, ◌+◌, ◌*◌, ◌<◌, ◌≤◌, ◌^◌, length, IfOk, List, slice_index_or};
ghost use Rattle.sweep.specs.Block.{AreBlocksOf, AreUpto, IsFirstBlock, IsReached};
ghost use Rattle.sweep.specs.Queue.{AreSmall, AreWithin};
ghost use Rattle.sweep.specs.declared.queue.Arrival.{Arrival as TheArrival};

use crate::queue::Arrival;
use std::alloc::{AllocError, Global};

/// The limits of blocks of three widths, of the arrivals that were taken in.
#[derive(Drop)]
pub struct Blocks {
    /// How many were taken in.
    pub taken: usize,
    pub of_1: Vec<u128>,
    pub of_128: Vec<u128>,
    pub of_16384: Vec<u128>,
}

impl Blocks {
    /// Blocks of indices below `count`, before any arrival.
    pub fn new(alloc: Global, count: usize) -> Result<Blocks, AllocError>
        requires few { count ≤ 1_000_000 }
        ensures taken { IfOk result (λ blocks. blocks.taken ≡ 0) }
        ensures are { IfOk result (λ blocks. (queue : List TheArrival) → AreWithin count queue →
            AreBlocksOf queue blocks) }
    {
        let (wide, wider) = (128, 16384);
        let of_1 = vec![in alloc; 0; count + 1]?;
        let of_128 = vec![in alloc; 0; count / wide + 1]?;
        let of_16384 = vec![in alloc; 0; count / wider + 1]?;
        Ok(Blocks {
            taken: 0,
            of_1,
            of_128,
            of_16384,
        })
    }

    /// Takes in one arrival more.
    fn take_next(&mut self, queue: &[Arrival])
        requires some { self.old.taken < length queue.now }
        requires small { AreSmall queue.now }
        requires are { AreBlocksOf queue.now self.old }
        ensures taken { self.new.taken ≡ self.old.taken + 1 }
        ensures are { AreBlocksOf queue.now self.new }
    {
        let arrival = queue[self.taken];
        let limit = arrival.height + 1;
        let index = arrival.index as usize;
        self.of_1[index] = self.of_1[index].max(limit);
        self.of_128[index / 128] = self.of_128[index / 128].max(limit);
        self.of_16384[index / 16384] = self.of_16384[index / 16384].max(limit);
        self.taken += 1;
    }

    /// The first index that reaches a height among the first `count` arrivals.
    pub fn first(&mut self, queue: &[Arrival], count: usize, height: u128) -> usize
        requires within { count ≤ length queue.now }
        requires small { AreSmall queue.now }
        requires taken { self.old.taken ≤ count }
        requires are { AreBlocksOf queue.now self.old }
        ensures taken { self.new.taken ≤ count }
        ensures are { AreBlocksOf queue.now self.new }
        ensures first { (place index : ℕ) → AreUpto queue.now place count →
            IsReached queue.now place height index →
            IsFirstBlock queue.now place height 1 result }
    {
        while self.taken < count {
            self.take_next(queue);
        }
        let block = first_block(self.of_16384.as_slice(), 0, height);
        let block = first_block(self.of_128.as_slice(), 128 * block, height);
        first_block(self.of_1.as_slice(), 128 * block, height)
    }
}

/// The first of 128 blocks from a number on whose limit is above a height, or else where they end.
fn first_block(limits: &[u128], first: usize, height: u128) -> usize
    requires { first < 2 ^ 40 }
    ensures at_most { result ≤ length limits.now }
    ensures first { (block : ℕ) → first ≤ block → block < first + 128 →
        height < slice_index_or limits.now block 0 →
        (result ≤ block) × (height < slice_index_or limits.now result 0) }
{
    let end = limits.len().min(first + 128);
    let mut block = first.min(end);
    while block < end && limits[block] <= height {
        block += 1;
    }
    block
}
