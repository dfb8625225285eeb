//! A sink over any writer.

ghost use Rattle.std.specs.Prelude.{◌≡◌, ◌+◌, ◌<◌, ◌≤◌, ℕ, length, take, MatchOption, true};
ghost use Rattle.std.specs.Io.KnownBytes.{Appends, Keeps};

use crate::interruption::MAX_TRIES;
use crate::sink::{Sink, SinkFault};
use std::io::{ErrorKind, Write};

/// A sink that appends to a writer, and flushes it to finish.
///
/// A write or a flush that was interrupted is tried again, up to a thousand times in all. Any other
/// failed one, also one that would block, and a write that takes nothing, is a fault at once, and
/// nothing is written after it.
#[derive(Debug, Drop)]
pub struct WriteSink<W> {
    writer: W,
    usable: bool,
    faults: u64,
}

impl<W: Write> WriteSink<W> {
    /// An open sink that hasn't failed yet.
    pub fn new(writer: W) -> WriteSink<W>
        ensures { ⟦<WriteSink<W> as Sink>⟧.state result
            ≡ record { contents = W.contents writer; is_open = true; faults = 0 } }
    {
        WriteSink {
            writer,
            usable: true,
            faults: 0,
        }
    }
}

/// Writes some of the bytes, at least one, or nothing if the writer fails.
fn write_some<W: Write>(writer: &mut W, bytes: &[u8]) -> Option<usize>
    requires { 0 < length bytes.now }
    ensures { MatchOption result (Keeps (W.contents writer.old) (W.contents writer.new))
        (λ n. (0 < n) × (n ≤ length bytes.now)
        × Appends (W.contents writer.old) (W.contents writer.new) (take n bytes.now)) }
{
    for _ in 0..MAX_TRIES {
        match writer.write(bytes) {
            Ok(0) => return None,
            Ok(n) => return Some(n),
            Err(error) => {
                if error.kind() != ErrorKind::Interrupted {
                    return None;
                }
            }
        }
    }
    None
}

/// Flushes, and answers whether the writer could.
fn flush_all<W: Write>(writer: &mut W) -> bool
    ensures { Keeps (W.contents writer.old) (W.contents writer.new) }
{
    for _ in 0..MAX_TRIES {
        match writer.flush() {
            Ok(()) => return true,
            Err(error) => {
                if error.kind() != ErrorKind::Interrupted {
                    return false;
                }
            }
        }
    }
    false
}

impl<W: Write> Sink for WriteSink<W> {
    ghost state = { λ s.
        record { contents = W.contents s.writer; is_open = s.usable; faults = s.faults } };

    fn push(&mut self, bytes: &[u8]) -> Result<usize, SinkFault> {
        if bytes.is_empty() {
            return Ok(0);
        }
        match write_some(&mut self.writer, bytes) {
            Some(n) => Ok(n),
            None => {
                self.usable = false;
                self.faults += 1;
                Err(SinkFault)
            }
        }
    }

    fn finish(&mut self) -> Result<(), SinkFault> {
        self.usable = false;
        if flush_all(&mut self.writer) {
            Ok(())
        } else {
            self.faults += 1;
            Err(SinkFault)
        }
    }

    fn faults(&self) -> u64 {
        self.faults
    }
}
