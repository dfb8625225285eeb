//! What is made for `at` with one reading.

ghost use Rattle.std.specs.Prelude.{◌≡◌, ◌≤◌, IfOk, max};
ghost use Rattle.audit.specs.Common.{IsWritable, reading_over};
ghost use Rattle.audit.specs.Reading as spec;
ghost use Rattle.audit.specs.Evidence.{IsLawfulEvidence, evidence_data};
ghost use Rattle.audit.specs.Report.{TellsAlone};

use crate::evidence::Evidence;
use crate::sample_list::samples_of;
use crate::whole_text::publish_text;
use audit_text::parts_text;
use byte_stream::Sink;
use finder::laws::best_hulls_hold_the_error;
use line_writer::Style;
use report::{Outcome, RunFault};
use span_cover::piece_hull;
use std::alloc::{AllocError, Global};
use true_time::laws::true_time_lies_between;
use true_time::{add_true_time, parts_at};

/// What does each server say about the clock while it shows a reading, and when was that?
#[derive(Clone, Copy, Debug)]
pub struct AtReading {
    /// The first tick of 2^-32 s of the Unix epoch for which the clock showed it.
    pub begin: u64,
    /// The last one. If it is less, the first alone is meant.
    pub end: u64,
}

/// The whole text for a reading of these ticks.
fn reading_text(
    alloc: Global,
    style: Style,
    begin: u64,
    end: u64,
    evidence: &Evidence,
) -> Result<Vec<u8>, AllocError>
    requires in_order { begin ≤ end }
    requires evidence { IsLawfulEvidence evidence.now }
    ensures { IfOk result (λ text. text.items ≡
        spec.reading_text style (reading_over begin end) (evidence_data evidence.now)) }
{
    let claim = &evidence.claim;
    let found = parts_at(alloc, samples_of(evidence), claim, begin, end)?;
    let parts = found.as_slice();
    let hull = piece_hull(parts, claim.groups.as_slice(), claim.false_max);
    let mut text = parts_text(alloc, style, claim, parts, hull)?;
    add_true_time(&mut text, style, begin, end, hull)?;
    Ok(text)
}

/// The last tick that is meant.
pub(crate) fn last_of(asked: AtReading) -> u64
    ensures last { result ≡ max asked.begin asked.end }
    ensures in_order { asked.begin ≤ result }
{
    asked.begin.max(asked.end)
}

/// Tells what each server says about the clock while it shows a reading, and when that was.
pub(crate) fn tell<S: Sink>(
    alloc: Global,
    asked: AtReading,
    style: Style,
    evidence: &Evidence,
    out: &mut S,
) -> Result<Outcome, RunFault>
    requires evidence { IsLawfulEvidence evidence.now }
    requires out { IsWritable (S.state out.old) }
    ensures { TellsAlone (spec.at_reading asked.begin asked.end) style
        (evidence_data evidence.now) (S.state out.old) (S.state out.new) result }
{
    best_hulls_hold_the_error();
    true_time_lies_between();
    let text = reading_text(alloc, style, asked.begin, last_of(asked), evidence);
    publish_text(out, text, Outcome::Yes)
}
