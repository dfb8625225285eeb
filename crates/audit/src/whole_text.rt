//! A text that is made whole, on its way out.

ghost use Rattle.std.specs.Prelude.{◌≡◌, ◌++◌, MatchResult, IfOk, IfErr, List, ℕ, Ok, Err};
ghost use Rattle.audit.specs.Common.{about_told, IsWritable, IsUnwritten, whole_text};
ghost use Rattle.audit.specs.Report.{IsOfMaking, TellsOf};

use audit_text::add_about;
use byte_stream::Sink;
use line_writer::Style;
use report::{Made, Outcome, RunFault, publish};
use std::alloc::AllocError;

/// A text that was made whole, with its outcome; or it wasn't, for want of memory.
fn made_whole(text: Result<Vec<u8>, AllocError>, outcome: Outcome) -> Result<Made, RunFault>
    ensures made { MatchResult text
        (λ t. result ≡ Ok (record { text = t.items; outcome = outcome }))
        (λ e. result ≡ Err RunFault.Memory) }
    ensures fault { IfErr result IsOfMaking }
    ensures outcome { IfOk result (λ made. made.outcome ≡ outcome) }
    ensures unwritten { IsUnwritten result }
{
    match text {
        Ok(text) => Ok(Made { text, outcome }),
        Err(AllocError) => Err(RunFault::Memory),
    }
}

/// A text that was made whole, and behind it what stands about the inputs of a run.
pub(crate) fn with_about(
    text: Result<Vec<u8>, AllocError>,
    style: Style,
    about: &[u8],
) -> Result<Vec<u8>, AllocError>
    ensures { (expected : List ℕ) → IfOk text (λ t. t.items ≡ expected) →
        IfOk result (λ t. t.items ≡ expected ++ about_told style about.now) }
{
    let mut text = text?;
    add_about(&mut text, style, about)?;
    Ok(text)
}

/// Writes a text that was made whole, or nothing if it wasn't for want of memory, and finishes the
/// sink. No more memory is taken.
///
/// `Write(n)` comes if the sink failed after exactly n bytes of the text; n is the whole length if
/// only `finish` failed.
#[tactic(auto, using(crate::proofs::Showing::made_whole_is))]
pub(crate) fn publish_text<S: Sink>(
    out: &mut S,
    text: Result<Vec<u8>, AllocError>,
    outcome: Outcome,
) -> Result<Outcome, RunFault>
    requires { IsWritable (S.state out.old) }
    ensures { (expected : List ℕ) → IfOk text (λ t. t.items ≡ expected) →
        TellsOf (whole_text expected outcome) (λ o. o ≡ outcome)
        (S.state out.old) (S.state out.new) result }
{
    let made = made_whole(text, outcome);
    publish(out, &made)
}
