//! A feed with a buffer before it.

ghost use Rattle.std.specs.Prelude.{◌≡◌, ◌+◌, ◌-◌, ◌≤◌, IfOk, IfErr, vec_len};
ghost use Rattle.pcap_reader.specs.Limit.{most_taken, buffer_size};

use crate::fault::CaptureFault;
use std::alloc::{AllocError, Global};

/// The bytes of the buffer: those of two records at least.
const BUFFER_SIZE: usize = 1 << 19;

/// A feed, and those of its bytes that were pulled and not yet consumed: `buffer[start..end]`.
#[derive(Drop)]
pub(crate) struct Buffered<F> {
    pub(crate) feed: F,
    pub(crate) buffer: Vec<u8>,
    pub(crate) start: usize,
    pub(crate) end: usize,
    /// How many bytes were consumed.
    pub(crate) place: u64,
    ghost ordered: { start ≤ end },
    ghost in_bounds: { end ≤ vec_len buffer },
    ghost roomy: { vec_len buffer ≡ buffer_size },
    ghost in_limit: { place + (end - start) ≤ most_taken },
}

impl<F> Buffered<F> {
    /// Nothing pulled yet. The buffer is made here. If there is no memory for it, the feed comes
    /// back with `Memory`.
    pub(crate) fn new(alloc: Global, feed: F) -> Result<Buffered<F>, (F, CaptureFault)>
        ensures feed { IfOk result (λ b. b.feed ≡ feed) }
        ensures none_held { IfOk result (λ b. (b.start ≡ 0) × (b.end ≡ 0)) }
        ensures none_consumed { IfOk result (λ b. b.place ≡ 0) }
        ensures back { IfErr result (λ refused. refused.0 ≡ feed) }
        ensures memory { IfErr result (λ refused. refused.1 ≡ CaptureFault.Memory) }
    {
        match vec![in alloc; 0; BUFFER_SIZE] {
            Ok(buffer) => Ok(Buffered {
                feed,
                buffer,
                start: 0,
                end: 0,
                place: 0,
            }),
            Err(AllocError) => Err((feed, CaptureFault::Memory)),
        }
    }

    /// The feed, at the byte after those that were pulled.
    pub(crate) fn into_feed(self) -> F
        ensures { result ≡ self.feed }
    {
        self.feed
    }
}
