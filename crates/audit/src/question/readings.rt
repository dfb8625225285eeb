//! What is made for `at` with a file of readings.

ghost use Rattle.std.specs.Prelude.{◌≡◌, IfOk};
ghost use Rattle.audit.specs.Common.{AreLawfulTimes, readings_text, times_data};
ghost use Rattle.audit.specs.Evidence.{IsLawfulEvidence, evidence_data, samples_in};
ghost use Rattle.audit.specs.Question.{no_finding};
ghost use Rattle.audit.specs.Readings.{readings};

use crate::evidence::Evidence;
use crate::question::Question;
use crate::sample_list::samples_of;
use crate::whole_text::publish_text;
use byte_stream::Sink;
use line_writer::Style;
use reading_time::Times;
use report::{Outcome, RunFault};
use std::alloc::{AllocError, Global};
use true_time::laws::true_time_lies_between;
use true_time::readings_text;

/// When was it that the clock showed the readings of the second input?
#[derive(Clone, Copy, Debug)]
pub struct Readings;

/// The whole text for these readings.
fn text_on(
    alloc: Global,
    style: Style,
    times: &Times,
    evidence: &Evidence,
) -> Result<Vec<u8>, AllocError>
    requires times { AreLawfulTimes times.now }
    requires evidence { IsLawfulEvidence evidence.now }
    ensures { IfOk result (λ text. text.items ≡ readings_text style
        (samples_in (evidence_data evidence.now)) (evidence_data evidence.now).claim
        (times_data times.now)) }
{
    let (claim, readings) = (&evidence.claim, times.readings.as_slice());
    readings_text(alloc, style, samples_of(evidence), claim, readings)
}

impl Question for Readings {
    type Second = Times;

    type Finding = ();

    ghost asks = { λ _. readings };

    ghost finding = { λ _. no_finding };

    ghost IsFound = { λ _ _ _ _ _. Unit {0} };

    fn find(
        self,
        _alloc: Global,
        _style: Style,
        _second: &Times,
        _evidence: &Evidence,
    ) -> Result<(), RunFault> {
        Ok(())
    }

    fn tell<S: Sink>(
        self,
        alloc: Global,
        style: Style,
        second: &Times,
        evidence: &Evidence,
        _found: &(),
        out: &mut S,
    ) -> Result<Outcome, RunFault> {
        true_time_lies_between();
        let text = text_on(alloc, style, second, evidence);
        publish_text(out, text, Outcome::Yes)
    }
}
