//! Bytes that come a few at a time.

ghost use Rattle.std.specs.Prelude.{◌≡◌, ◌≤◌, length, IfOk, is_err};
ghost use Rattle.std.specs.Io.KnownBytes.{ReadConsumes};
ghost use Rattle.byte_stream.specs.Fault.{CountsFault};
ghost use Rattle.byte_stream.specs.Intake.{CountsBytes};
ghost use Rattle.byte_stream.specs.State.{FeedState, IsReadable};

use thiserror::Error;

/// The device of a feed failed.
#[derive(Clone, Copy, Debug, PartialEq, Eq, Error)]
#[error("the device failed")]
pub struct FeedFault;

/// Bytes in order, as many with each call as the feed pleases.
///
/// A pull needs the feed's count of faults below `u64::MAX`.
pub trait Feed {
    /// The bytes still to come, if they are known, how many were pulled, and how many pulls have
    /// failed.
    ghost state: { Self → FeedState };

    /// Puts the next bytes at the front of `into` and answers how many they are. What stands
    /// after them is open.
    ///
    /// It answers 0 for a nonempty `into` only at the end. A pull that failed has given no byte.
    /// The count of bytes grows by as many as were given, up to `u64::MAX`, where it stays.
    fn pull(&mut self, into: &mut [u8]) -> Result<usize, FeedFault>
        requires { IsReadable (state self.old) }
        ensures within { IfOk result (λ n. n ≤ length into.new) }
        ensures known { ReadConsumes (state self.old).remaining (state self.new).remaining
            result into.new }
        ensures counts_bytes { CountsBytes result
            (state self.old).taken (state self.new).taken }
        ensures counts_fault { CountsFault (is_err result)
            (state self.old).faults (state self.new).faults };

    /// How many pulls have failed.
    fn faults(&self) -> u64
        ensures { result ≡ (state self.now).faults };
}
