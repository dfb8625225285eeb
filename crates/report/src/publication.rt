//! The end of a run that makes its whole text before it writes any.

ghost use Rattle.byte_stream.specs.State.{IsWritable};
ghost use Rattle.report.specs.Publication.{IsUnwritten, Publishes};

use crate::delivery::deliver;
use crate::fault::{Outcome, RunFault};
use byte_stream::Sink;
use std::marker::Model;

/// The whole text of a run, and its outcome.
#[derive(Debug, Drop)]
pub struct Made {
    /// The text, of lines that each end with a line feed.
    pub text: Vec<u8>,
    /// The outcome.
    pub outcome: Outcome,
}

// Clauses see the text as its bytes.
impl Model for Made {
    ghost use Rattle.report.specs.Publication.{Ready};

    ghost Value = { Ready };

    ghost view = { λ made. record { text = made.text.items; outcome = made.outcome } };
}

/// Pushes the text that was made and finishes the sink. If none was made it only finishes the sink,
/// and answers the fault whatever `finish` gives.
///
/// `Write(n)` comes if the sink failed after exactly n bytes of the text; n is the whole length if
/// only `finish` failed.
pub fn publish<S: Sink>(out: &mut S, made: &Result<Made, RunFault>) -> Result<Outcome, RunFault>
    requires writable { IsWritable (S.state out.old) }
    requires unwritten { IsUnwritten made.now }
    ensures { Publishes (S.state out.old) (S.state out.new) made.now result }
{
    match made {
        Ok(made) => match deliver(made.text.as_slice(), out) {
            Ok(()) => Ok(made.outcome),
            Err(sent) => Err(RunFault::Write(sent as u64)),
        },
        Err(fault) => {
            let _ = out.finish();
            Err(*fault)
        }
    }
}
