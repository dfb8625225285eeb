//! What is made for `at` by covers, with one reading.

ghost use Rattle.std.specs.Prelude.{◌≡◌, ◌≤◌, ◌∷◌, [], IfOk, pos, true};
ghost use Rattle.audit.specs.Common.{IsFinderFor, IsPiece, stretch_over};
ghost use Rattle.audit.specs.ByCovers as spec;
ghost use Rattle.audit.specs.ByCovers.{IsHeldOver, at_by_covers, hulls_finding, is_of};
ghost use Rattle.audit.specs.Evidence.{IsLawfulEvidence, evidence_data};
ghost use Rattle.audit.specs.Reading.{ticks_asked};

use crate::evidence::Evidence;
use crate::question::Question;
use crate::question::reading::{AtReading, last_of};
use crate::whole_text::publish_text;
use audit_text::parts_text;
use byte_stream::Sink;
use cover_finder::HullFinder;
use cover_finder::laws::{ends_are_nearly_attained, hulls_by_covers_hold_the_error};
use intersection::kinds::Hull;
use line_writer::Style;
use report::{Outcome, RunFault};
use span_cover::Stretch;
use std::alloc::{AllocError, Global};
use true_time::add_true_time;
use true_time::laws::errors_tell_true_time;

/// How far off may the clock have been while it showed a reading, by covers, and when was that?
#[derive(Clone, Copy, Debug)]
pub struct AtByCovers {
    /// The ticks of the reading.
    pub reading: AtReading,
}

/// The hull over the ticks of a reading.
#[derive(Clone, Copy, Debug)]
pub struct HullOver {
    /// The first tick, and the last one.
    pub(crate) begin: u64,
    pub(crate) end: u64,
    /// The hull.
    pub(crate) hull: Hull,
}

/// The stretch of these ticks.
fn ticks(begin: u64, end: u64) -> Stretch
    requires in_order { begin ≤ end }
    ensures value { result ≡ stretch_over (pos begin) (pos end) }
    ensures piece { IsPiece result.begin result.end }
{
    Stretch {
        begin: i128::from(begin),
        end: i128::from(end),
    }
}

/// What finds the hulls of evidence.
pub(crate) fn finder_for(alloc: Global, evidence: &Evidence) -> Result<HullFinder, AllocError>
    requires evidence { IsLawfulEvidence evidence.now }
    ensures { IfOk result (IsFinderFor (evidence_data evidence.now).claim
        (evidence_data evidence.now).collection.exchanges) }
{
    HullFinder::new(alloc, &evidence.held.exchanges, &evidence.claim)
}

/// The hull over these ticks.
pub(crate) fn hull_over(finder: &HullFinder, evidence: &Evidence, begin: u64, end: u64) -> HullOver
    requires evidence { IsLawfulEvidence evidence.now }
    requires finder { IsFinderFor (evidence_data evidence.now).claim
        (evidence_data evidence.now).collection.exchanges finder.now }
    requires in_order { begin ≤ end }
    ensures begin { result.begin ≡ begin }
    ensures end { result.end ≡ end }
    ensures held { IsHeldOver (evidence_data evidence.now) result }
{
    hulls_by_covers_hold_the_error();
    ends_are_nearly_attained();
    errors_tell_true_time();
    let stretch = ticks(begin, end);
    let hull = finder.hull(&evidence.claim, stretch);
    HullOver { begin, end, hull }
}

/// The hull over the ticks of one reading.
fn found_over(
    alloc: Global,
    evidence: &Evidence,
    begin: u64,
    end: u64,
) -> Result<HullOver, AllocError>
    requires evidence { IsLawfulEvidence evidence.now }
    requires in_order { begin ≤ end }
    ensures begin { IfOk result (λ found. found.begin ≡ begin) }
    ensures end { IfOk result (λ found. found.end ≡ end) }
    ensures held { IfOk result (IsHeldOver (evidence_data evidence.now)) }
{
    let finder = finder_for(alloc, evidence)?;
    Ok(hull_over(&finder, evidence, begin, end))
}

/// The whole text on a hull.
fn hull_text(
    alloc: Global,
    style: Style,
    evidence: &Evidence,
    found: &HullOver,
) -> Result<Vec<u8>, AllocError>
    requires evidence { IsLawfulEvidence evidence.now }
    ensures { IfOk result (λ text. text.items ≡
        spec.hull_text style (evidence_data evidence.now) found.now) }
{
    let mut text = parts_text(alloc, style, &evidence.claim, &[], found.hull)?;
    add_true_time(&mut text, style, found.begin, found.end, found.hull)?;
    Ok(text)
}

impl Question for AtByCovers {
    type Second = ();

    type Finding = HullOver;

    ghost asks = { λ asked. at_by_covers asked.reading.begin asked.reading.end };

    ghost finding = { λ found. hulls_finding (found ∷ []) };

    ghost IsFound = { λ asked _ _ _ found.
        is_of (ticks_asked asked.reading.begin asked.reading.end) found ≡ true };

    #[tactic(auto, using(crate::proofs::Showing::memory_unfound))]
    fn find(
        self,
        alloc: Global,
        _style: Style,
        _second: &(),
        evidence: &Evidence,
    ) -> Result<HullOver, RunFault> {
        match found_over(alloc, evidence, self.reading.begin, last_of(self.reading)) {
            Ok(found) => Ok(found),
            Err(AllocError) => Err(RunFault::Memory),
        }
    }

    fn tell<S: Sink>(
        self,
        alloc: Global,
        style: Style,
        _second: &(),
        evidence: &Evidence,
        found: &HullOver,
        out: &mut S,
    ) -> Result<Outcome, RunFault> {
        let text = hull_text(alloc, style, evidence, found);
        publish_text(out, text, Outcome::Yes)
    }
}
