//! The samples on their way out, line by line.

ghost use Rattle.std.specs.Prelude.{◌≡◌, ◌≤◌, Ok, vec_capacity};
ghost use Rattle.audit.specs.Common.{IsWritable, IsReady, fresh_output, Publishes, PutsReady, output_state, sink_name};
ghost use Rattle.report.specs.declared.output.TheConstants.{OUTPUT_CAPACITY};
ghost use Rattle.audit.specs.Evidence.{IsLawfulEvidence, evidence_data};
ghost use Rattle.audit.specs.Samples.{samples_ready};

use crate::evidence::Evidence;
use audit_text::{write_counts_line, write_sample_line};
use byte_stream::Sink;
use line_writer::Line;
use pairing::ToExchange;
use report::{Outcome, Output, RunFault};

/// Puts the line of each sample, and the line of counts.
fn put_samples<S: Sink>(out: &mut Output<'_, S>, evidence: &Evidence) -> Result<Outcome, RunFault>
    requires lawful { IsLawfulEvidence evidence.now }
    requires ready { IsReady (output_state S.state out.old) }
    requires nothing_put { output_state S.state out.old
        ≡ fresh_output (output_state S.state out.old).sink }
    ensures same_sink { sink_name out.new ≡ sink_name out.old }
    ensures puts { PutsReady (samples_ready (evidence_data evidence.now))
        (output_state S.state out.old).sink (output_state S.state out.new) result }
{
    let mut line = Line::new();
    for (number, held) in evidence.held.exchanges.iter().enumerate() {
        write_sample_line(
            &mut line,
            &evidence.claim,
            number as u32,
            &held.to_exchange(),
        );
        if let Err(fault) = out.put(line.as_bytes()) {
            return Err(fault);
        }
    }
    write_counts_line(&mut line, &evidence.held);
    match out.put(line.as_bytes()) {
        Ok(()) => Ok(Outcome::Yes),
        Err(fault) => Err(fault),
    }
}

/// Writes the samples for a program and finishes the sink, gathering in this buffer. It takes no
/// memory.
///
/// `Write(n)` comes if the sink failed after exactly n bytes of the text; n is the whole length if
/// only `finish` failed.
pub(crate) fn publish_samples<S: Sink>(
    out: &mut S,
    evidence: &Evidence,
    buffer: &mut Vec<u8>,
) -> Result<Outcome, RunFault>
    requires writable { IsWritable (S.state out.old) }
    requires lawful { IsLawfulEvidence evidence.now }
    requires capacity { OUTPUT_CAPACITY ≤ vec_capacity buffer.old }
    ensures { Publishes (S.state out.old) (S.state out.new)
        (Ok (samples_ready (evidence_data evidence.now))) result }
{
    let mut output = Output::new(out, buffer);
    let ran = put_samples(&mut output, evidence);
    output.close(ran)
}
