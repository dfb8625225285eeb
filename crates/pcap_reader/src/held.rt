//! The bytes that a buffered feed holds.

ghost use Rattle.std.specs.Prelude.{◌≡◌, ◌+◌, ◌-◌, ◌≤◌, ℕ, length, drop, take};
ghost use Rattle.pcap_reader.specs.Buffered.{held_bytes, last_bytes, supply_of};

use crate::buffered::Buffered;
use byte_stream::Feed;

impl<F: Feed> Buffered<F> {
    /// The bytes that are held.
    pub(crate) fn held(&self) -> &[u8]
        ensures value { result.now ≡ held_bytes self.now }
        ensures len { length result.now ≡ self.now.end - self.now.start }
    {
        let (start, end) = (self.start, self.end);
        let all = self.buffer.as_slice();
        &all[start..end]
    }

    /// The last `count` bytes that were consumed.
    pub(crate) fn consumed(&self, count: usize) -> &[u8]
        requires { count ≤ self.now.start }
        ensures { result.now ≡ last_bytes self.now count }
    {
        let (start, end) = (self.start - count, self.start);
        let all = self.buffer.as_slice();
        &all[start..end]
    }

    /// Takes `count` bytes from the front of those held.
    pub(crate) fn consume(&mut self, count: usize)
        requires { count ≤ self.old.end - self.old.start }
        ensures feed { self.new.feed ≡ self.old.feed }
        ensures place { self.new.place ≡ self.old.place + count }
        ensures rest { held_bytes self.new ≡ drop count (held_bytes self.old) }
        ensures room { count ≤ self.new.start }
        ensures last { (n k : ℕ) → n + k ≡ count →
            last_bytes self.new k ≡ take k (drop n (held_bytes self.old)) }
        ensures supply { supply_of F.state self.new ≡ supply_of F.state self.old }
    {
        self.start += count;
        self.place += count as u64;
    }
}
