//! What is made for `samples`.

ghost use Rattle.byte_stream.specs.State.{IsWritable};
ghost use Rattle.audit.specs.Evidence.{IsLawfulEvidence, evidence_data};
ghost use Rattle.audit.specs.Report.{TellsAlone};
ghost use Rattle.audit.specs.Samples.{samples};

use crate::evidence::Evidence;
use crate::sample_output::publish_samples;
use crate::whole_text::publish_text;
use audit_text::samples_text;
use byte_stream::Sink;
use line_writer::Style;
use report::{Outcome, RunFault, output_buffer, publish};
use std::alloc::{AllocError, Global};

/// Tells what each exchange says about the clock.
#[tactic(auto, using(crate::proofs::Showing::told_fault))]
pub(crate) fn tell<S: Sink>(
    alloc: Global,
    style: Style,
    evidence: &Evidence,
    out: &mut S,
) -> Result<Outcome, RunFault>
    requires evidence { IsLawfulEvidence evidence.now }
    requires out { IsWritable (S.state out.old) }
    ensures { TellsAlone samples style (evidence_data evidence.now)
        (S.state out.old) (S.state out.new) result }
{
    match style {
        // Each line is made on its way out, whatever their number.
        Style::Plain => match output_buffer(alloc) {
            Ok(mut buffer) => publish_samples(out, evidence, &mut buffer),
            Err(AllocError) => publish(out, &Err(RunFault::Memory)),
        },
        _ => {
            let text = samples_text(alloc, style, &evidence.claim, &evidence.held);
            publish_text(out, text, Outcome::Yes)
        }
    }
}
