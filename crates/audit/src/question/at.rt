//! What is made for `at`.

ghost use Rattle.std.specs.Prelude.{◌≡◌, IfOk};
ghost use Rattle.audit.specs.Common.{IsWritable, IsPiece};
ghost use Rattle.audit.specs.At as spec;
ghost use Rattle.audit.specs.Evidence.{IsLawfulEvidence, evidence_data};
ghost use Rattle.audit.specs.Report.{TellsAlone};

use crate::evidence::Evidence;
use crate::sample_list::samples_of;
use crate::whole_text::publish_text;
use audit_text::parts_text;
use byte_stream::Sink;
use checker::laws::hulls_hold_the_error;
use era_unfold::TICKS_PER_SECOND;
use finder::best_parts;
use line_writer::Style;
use report::{Outcome, RunFault};
use span_cover::piece_hull;
use std::alloc::{AllocError, Global};

/// What does each server say about the clock at a moment?
#[derive(Clone, Copy, Debug)]
pub struct At {
    /// The moment, in Unix seconds.
    pub unix_second: u32,
}

/// The tick at which a Unix second begins.
fn tick_of(unix_second: u32) -> i128
    ensures value { result ≡ spec.tick_of unix_second }
    ensures piece { IsPiece result result }
{
    i128::from(unix_second) * TICKS_PER_SECOND as i128
}

/// The whole text for a Unix second.
fn at_text(
    alloc: Global,
    style: Style,
    unix_second: u32,
    evidence: &Evidence,
) -> Result<Vec<u8>, AllocError>
    requires { IsLawfulEvidence evidence.now }
    ensures { IfOk result (λ text.
        text.items ≡ spec.at_text style unix_second (evidence_data evidence.now)) }
{
    let claim = &evidence.claim;
    let found = best_parts(samples_of(evidence), claim, tick_of(unix_second));
    let parts = found.as_slice();
    let hull = piece_hull(parts, claim.groups.as_slice(), claim.false_max);
    parts_text(alloc, style, claim, parts, hull)
}

/// Tells what each server says about the clock at a moment.
pub(crate) fn tell<S: Sink>(
    alloc: Global,
    asked: At,
    style: Style,
    evidence: &Evidence,
    out: &mut S,
) -> Result<Outcome, RunFault>
    requires evidence { IsLawfulEvidence evidence.now }
    requires out { IsWritable (S.state out.old) }
    ensures { TellsAlone (spec.at asked.unix_second) style (evidence_data evidence.now)
        (S.state out.old) (S.state out.new) result }
{
    hulls_hold_the_error();
    let text = at_text(alloc, style, asked.unix_second, evidence);
    publish_text(out, text, Outcome::Yes)
}
