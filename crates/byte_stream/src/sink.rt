//! Where bytes go.

ghost use Rattle.std.specs.Prelude.{◌≡◌, ◌<◌, ◌≤◌, length, IfOk, is_ok, is_err, false};
ghost use Rattle.std.specs.Io.KnownBytes.{Keeps, WriteAppends};
ghost use Rattle.byte_stream.specs.Fault.{CountsFault};
ghost use Rattle.byte_stream.specs.State.{SinkState, IsWritable};

use thiserror::Error;

/// The device of a sink failed.
#[derive(Clone, Copy, Debug, PartialEq, Eq, Error)]
#[error("the device failed")]
pub struct SinkFault;

/// A sink of bytes: a device, or a list in memory, whose contents are known.
///
/// It's open until it's finished or a push has failed, and takes no call of `push` or `finish`
/// after that. Such a call needs the sink's count of faults below `u64::MAX`.
pub trait Sink {
    /// The bytes that the sink holds, if they are known, whether it may still be pushed to and
    /// finished, and how often it has failed.
    ghost state: { Self → SinkState };

    /// Appends bytes from the front of `bytes`, at least one if there is one, and answers how many.
    /// At an `Err` it has appended none, and is closed.
    fn push(&mut self, bytes: &[u8]) -> Result<usize, SinkFault>
        requires { IsWritable (state self.old) }
        ensures within { IfOk result (λ n. n ≤ length bytes.now) }
        ensures goes_on { IfOk result (λ n. 0 < length bytes.now → 0 < n) }
        ensures known { WriteAppends (state self.old).contents (state self.new).contents
            result bytes.now }
        ensures stays_open { (state self.new).is_open ≡ is_ok result }
        ensures counts_fault { CountsFault (is_err result)
            (state self.old).faults (state self.new).faults };

    /// Sees to it that what was pushed has gone out, and closes the sink, whatever it answers.
    fn finish(&mut self) -> Result<(), SinkFault>
        requires { IsWritable (state self.old) }
        ensures known { Keeps (state self.old).contents (state self.new).contents }
        ensures closes { (state self.new).is_open ≡ false }
        ensures counts_fault { CountsFault (is_err result)
            (state self.old).faults (state self.new).faults };

    /// How often the sink has failed.
    fn faults(&self) -> u64
        ensures { result ≡ (state self.now).faults };
}
