//! How the buffer of a feed is filled.

ghost use Rattle.std.specs.Prelude.{◌≡◌, ◌+◌, ◌-◌, ◌<◌, ◌≤◌, min, length, take, slice_range, OnOk, OnErr, is_err};
ghost use Rattle.std.specs.Io.KnownBytes.{IsAtEnd};
ghost use Rattle.byte_stream.specs.Fault.{CountsFault};
ghost use Rattle.byte_stream.specs.State.{IsReadable};
ghost use Rattle.pcap_reader.specs.Buffered.{Pulls, Refills};
ghost use Rattle.pcap_reader.specs.Limit.{most_taken, buffer_size};

use crate::buffered::Buffered;
use byte_stream::{Feed, FeedFault};

/// The most bytes that are ever pulled: a header, 4,000,000 records of 262,160 bytes, and one
/// byte more.
const MAX_TAKEN: u64 = 1_048_640_000_025;

impl<F: Feed> Buffered<F> {
    /// Pulls until at least `wanted` bytes are held or the feed is at its end. If they are held
    /// already it pulls nothing and moves nothing.
    #[inline(always)]
    pub(crate) fn hold(&mut self, wanted: usize) -> Result<(), FeedFault>
        requires fits { wanted ≤ buffer_size }
        requires limit { self.old.place + wanted ≤ most_taken }
        requires faults { IsReadable (F.state self.old.feed) }
        ensures { Refills F.state wanted self.old result self.new }
    {
        if self.end - self.start < wanted {
            self.fill(wanted)
        } else {
            Ok(())
        }
    }

    /// Pulls until `wanted` bytes are held, more than there are now, or the feed is at its end.
    #[cold]
    #[inline(never)]
    fn fill(&mut self, wanted: usize) -> Result<(), FeedFault>
        requires lacking { self.old.end - self.old.start < wanted }
        requires fits { wanted ≤ buffer_size }
        requires limit { self.old.place + wanted ≤ most_taken }
        requires faults { IsReadable (F.state self.old.feed) }
        ensures { Refills F.state wanted self.old result self.new }
    {
        let mut held = self.end - self.start;
        move_to_front(self.buffer.as_mut_slice(), self.start, self.end);
        let most = room(self.place, self.buffer.len());
        let pulled = pull_until(
            &mut self.feed,
            self.buffer.as_mut_slice(),
            &mut held,
            wanted,
            most,
        );
        self.start = 0;
        self.end = held;
        pulled
    }
}

/// Moves the bytes from `start` to `end` to the front.
fn move_to_front(buffer: &mut [u8], start: usize, end: usize)
    requires ordered { start ≤ end }
    requires in_bounds { end ≤ length buffer.old }
    ensures { take (end - start) buffer.new ≡ slice_range buffer.old start end }
{
    buffer.copy_within(start..end, 0);
}

/// How much of a buffer may be filled after `place` bytes were consumed.
fn room(place: u64, length: usize) -> usize
    requires { place ≤ most_taken }
    ensures { result ≡ min length (most_taken - place) }
{
    let left = MAX_TAKEN - place;
    if left < length as u64 {
        left as usize
    } else {
        length
    }
}

/// Pulls after the bytes that are held at the front, up to `most` in all, until at least `wanted`
/// are held or the feed is at its end.
fn pull_until<F: Feed>(
    feed: &mut F,
    buffer: &mut [u8],
    held: &mut usize,
    wanted: usize,
    most: usize,
) -> Result<(), FeedFault>
    requires lacking { held.old ≤ wanted }
    requires fits { wanted ≤ most }
    requires in_bounds { most ≤ length buffer.old }
    requires faults { IsReadable (F.state feed.old) }
    ensures at_most { held.new ≤ most }
    ensures pulls { Pulls (F.state feed.old) (F.state feed.new)
        (take held.old buffer.old) (take held.new buffer.new) }
    ensures enough { OnOk result (held.new < wanted → IsAtEnd (F.state feed.new).remaining) }
    ensures short { OnErr result (held.new < wanted) }
    ensures counts_fault { CountsFault (is_err result) (F.state feed.old).faults
        (F.state feed.new).faults }
{
    while *held < wanted {
        let count = feed.pull(&mut buffer[*held..most])?;
        if count == 0 {
            return Ok(());
        }
        *held += count;
    }
    Ok(())
}
