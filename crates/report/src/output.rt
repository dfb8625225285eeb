//! Text on its way to a sink.

ghost use Rattle.std.specs.Prelude.{◌≡◌, ◌+◌, ◌≤◌, [], ◌∷◌, length, OnOk, IfOk, vec_capacity};

use crate::delivery::push_all;
use crate::fault::{Outcome, RunFault};
use byte_stream::Sink;
use std::alloc::{AllocError, Global};

/// How many bytes an output gathers at most before it pushes them.
pub const OUTPUT_CAPACITY: usize = 65536;

/// Texts on their way to a sink: they are gathered, and pushed many at a time. No call takes
/// memory.
///
/// It borrows its sink and the buffer that it gathers in, and hands both back if it's dropped.
pub struct Output<'a, S> {
    sink: &'a mut S,
    text: &'a mut Vec<u8>,
    sent: u64,
    ghost room: { 65536 ≤ vec_capacity text.now },
}

impl<S> Drop for Output<'_, S> {
    fn drop(self)
        ensures { self.exit.0.now ≡ self.entry.sink.now }
    {
        let Output {
            sink: _,
            text: _,
            sent: _,
        } = self;
    }
}

/// The memory that an output gathers in.
pub fn output_buffer(alloc: Global) -> Result<Vec<u8>, AllocError>
    ensures { IfOk result (λ buffer. OUTPUT_CAPACITY ≤ vec_capacity buffer) }
{
    Vec::with_capacity(alloc, OUTPUT_CAPACITY)
}

impl<'a, S: Sink> Output<'a, S> {
    ghost use Rattle.report.specs.Output.{IsReady, Puts, fresh_output, with_text};
    ghost use Rattle.report.specs.Closing.{CanClose, Closes};
    ghost use Rattle.report.specs.State.{output_state, sink_name};

    /// An output over this sink, with nothing put yet. It gathers in this buffer, in place of what
    /// the buffer held.
    pub fn new(sink: &'a mut S, buffer: &'a mut Vec<u8>) -> Output<'a, S>
        requires { OUTPUT_CAPACITY ≤ vec_capacity buffer.old }
        ensures same_sink { sink_name result ≡ sink.entry.ghost_name }
        ensures state { output_state S.state result
            ≡ fresh_output (S.state sink.old) }
    {
        buffer.clear();
        Output {
            sink,
            text: buffer,
            sent: 0,
        }
    }

    /// Pushes what is gathered.
    ///
    /// The answer is `Write(n)` if the sink failed after exactly n bytes of all that was put.
    pub fn flush(&mut self) -> Result<(), RunFault>
        requires { IsReady (output_state S.state self.old) }
        ensures same_sink { sink_name self.new ≡ sink_name self.old }
        ensures puts_nothing { Puts (output_state S.state self.old)
            (output_state S.state self.new) [] result }
        ensures empty { OnOk result
            ((output_state S.state self.new).gathered ≡ []) }
    {
        match push_all(self.sink, self.text.as_slice()) {
            Ok(()) => {
                self.sent += self.text.len() as u64;
                self.text.clear();
                Ok(())
            }
            Err(gone) => Err(RunFault::Write(self.sent + gone as u64)),
        }
    }

    /// Gathers a text, after it has pushed what is gathered if there isn't room for both.
    ///
    /// The answer is `Write(n)` if the sink failed after exactly n bytes of what was put before.
    pub fn put(&mut self, text: &[u8]) -> Result<(), RunFault>
        requires ready { IsReady (output_state S.state self.old) }
        requires fits { length text.now ≤ OUTPUT_CAPACITY }
        ensures same_sink { sink_name self.new ≡ sink_name self.old }
        ensures puts { Puts (output_state S.state self.old)
            (output_state S.state self.new) (text.now ∷ []) result }
    {
        if self.text.len() <= OUTPUT_CAPACITY - text.len() {
            self.gather(text);
            return Ok(());
        }
        self.flush()?;
        self.gather(text);
        Ok(())
    }

    /// Gathers a text for which there is room.
    fn gather(&mut self, text: &[u8])
        requires { length (output_state S.state self.old).gathered
            + length text.now ≤ OUTPUT_CAPACITY }
        ensures same_sink { sink_name self.new ≡ sink_name self.old }
        ensures gathers { output_state S.state self.new
            ≡ with_text (output_state S.state self.old) text.now }
    {
        self.text.extend_from_slice(text).unwrap();
    }

    /// Ends a run that came to this answer: pushes what is gathered and finishes the sink, unless
    /// the sink has failed. If a device failed or memory was refused, what is gathered isn't
    /// pushed.
    ///
    /// The answer stays, unless a push fails, or `finish` fails after an outcome: then it's
    /// `Write`.
    pub fn close(&mut self, ran: Result<Outcome, RunFault>) -> Result<Outcome, RunFault>
        requires { CanClose (output_state S.state self.old) ran }
        ensures same_sink { sink_name self.new ≡ sink_name self.old }
        ensures closes { Closes (output_state S.state self.old)
            (output_state S.state self.new).sink ran result }
    {
        match ran {
            Ok(_) => match self.flush() {
                Ok(()) => match self.sink.finish() {
                    Ok(()) => ran,
                    Err(_) => Err(RunFault::Write(self.sent)),
                },
                Err(failed) => Err(failed),
            },
            Err(fault) => match fault {
                RunFault::Write(_) => ran,
                RunFault::Device(_) | RunFault::Memory => {
                    let _ = self.sink.finish();
                    ran
                }
                refusal => match self.flush() {
                    Ok(()) => {
                        let _ = self.sink.finish();
                        Err(refusal)
                    }
                    Err(failed) => Err(failed),
                },
            },
        }
    }
}
