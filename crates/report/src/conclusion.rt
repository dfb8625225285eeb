//! How an answer is reported.

ghost use Rattle.std.specs.Prelude.{◌≡◌, ◌+◌, ◌≤◌, ◌++◌, length, IfErr};
ghost use Rattle.line_writer.specs.declared.line.TheConstants.{CAPACITY};
ghost use Rattle.byte_stream.specs.State.{IsWritable};
ghost use Rattle.report.specs.Conclusion.{Concludes, conclusion_of, conclusion_text};

use crate::delivery::deliver;
use crate::exit_status::status;
use crate::fault::{Outcome, RunFault};
use crate::fault_text::put_fault;
use byte_stream::Sink;
use line_writer::Line;

/// What a command came to.
#[derive(Clone, Copy, Debug)]
pub struct Conclusion {
    /// The program's exit status.
    pub code: u8,
    /// The fault whose line was reported: none if the answer is an outcome, or the command line was
    /// refused.
    pub fault: Option<RunFault>,
}

/// Writes the line that reports an answer, with its line feed: none for an outcome.
fn put_answer(line: &mut Line, answer: &Result<Outcome, RunFault>)
    requires { length line.old + 201 ≤ CAPACITY }
    ensures { line.new ≡ conclusion_text answer.now ++ line.old }
{
    if let Err(fault) = answer {
        line.put_byte(b'\n');
        put_fault(line, fault);
    }
}

/// Reports an answer: a fault by its line and a line feed, an outcome by nothing, and finishes the
/// sink. The result has the answer's exit status and its fault, whatever the sink does.
///
/// It takes no memory, so that a run that is out of memory is reported too.
pub fn conclude<E: Sink>(answer: &Result<Outcome, RunFault>, err: &mut E) -> Conclusion
    requires { IsWritable (E.state err.old) }
    ensures concludes { Concludes answer.now (E.state err.old) (E.state err.new) }
    ensures exact { result ≡ conclusion_of answer.now }
    ensures fault { IfErr answer.now (λ fault. 2 ≤ result.code) }
{
    let mut line = Line::new();
    put_answer(&mut line, answer);
    let _ = deliver(line.as_bytes(), err);
    Conclusion {
        code: status(answer),
        fault: answer.err(),
    }
}
