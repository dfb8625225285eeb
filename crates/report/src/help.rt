//! The answer of help and of the version.

ghost use Rattle.std.specs.Prelude.{Some, string_bytes};
ghost use Rattle.byte_stream.specs.State.{IsWritable};
ghost use Rattle.report.specs.Reports.{whole_text};
ghost use Rattle.report.specs.Run.{bare_state};
ghost use Rattle.report.specs.Conclusion.{Answers};

use crate::conclusion::{Conclusion, conclude};
use crate::fault::Outcome;
use crate::publication::{Made, publish};
use byte_stream::Sink;

/// Shows a text on `out`, and returns the conclusion.
pub fn show<S: Sink, E: Sink>(text: String, out: &mut S, err: &mut E) -> Conclusion
    requires out { IsWritable (S.state out.old) }
    requires err { IsWritable (E.state err.old) }
    ensures { Answers (Some (whole_text (string_bytes text) Outcome.Yes))
        (bare_state (S.state out.old)) (bare_state (S.state out.new))
        (E.state err.old) (E.state err.new) result }
{
    let made = Ok(Made {
        text: text.into_bytes(),
        outcome: Outcome::Yes,
    });
    let answer = publish(out, &made);
    conclude(&answer, err)
}
