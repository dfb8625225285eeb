//! What is made for `at` by covers, with a file of readings.

ghost use Rattle.std.specs.Prelude.{◌≡◌, ◌++◌, All, IfOk, map, slice_get, true};
ghost use Rattle.audit.specs.Common.{AreLawfulTimes, IsFinderFor, IsLawfulReading, reading_data, rows_from, times_data};
ghost use Rattle.audit.specs.ByCovers as spec;
ghost use Rattle.audit.specs.ByCovers.{AreHeld, IsHeldAsNumbered, IsHeldOver, are_of, hull_there, hulls_finding, readings_by_covers};
ghost use Rattle.audit.specs.Evidence.{EvidenceData, IsLawfulEvidence, evidence_data};

use crate::evidence::Evidence;
use crate::question::Question;
use crate::question::by_covers::{HullOver, finder_for, hull_over};
use crate::whole_text::publish_text;
use byte_stream::Sink;
use cover_finder::HullFinder;
use intersection::kinds::Hull;
use line_writer::Style;
use reading_time::{Reading, Times};
use report::{Outcome, RunFault};
use std::alloc::{AllocError, Global};
use true_time::{add_heading, add_reading, numbers_in_order};

/// How far off may the clock have been while it showed the readings of the second input, by covers,
/// and when was that?
#[derive(Clone, Copy, Debug)]
pub struct ReadingsByCovers;

/// Puts the hull of the reading with this number into its place.
fn put_hull(
    hulls: &mut [Option<HullOver>],
    finder: &HullFinder,
    evidence: &Evidence,
    readings: &[Reading],
    number: usize,
)
    requires evidence { IsLawfulEvidence evidence.now }
    requires finder { IsFinderFor (evidence_data evidence.now).claim
        (evidence_data evidence.now).collection.exchanges finder.now }
    requires readings { All (λ r. IsLawfulReading (reading_data r)) readings.now }
    requires hulls { AreHeld (evidence_data evidence.now) hulls.old }
    ensures held { AreHeld (evidence_data evidence.now) hulls.new }
{
    if number < hulls.len() && number < readings.len() {
        let reading = &readings[number];
        hulls[number] = Some(hull_over(finder, evidence, reading.begin, reading.end));
    }
}

/// A place for each of so many hulls, none of which is found yet.
fn no_hulls(alloc: Global, count: usize) -> Result<Vec<Option<HullOver>>, AllocError>
    ensures { (e : EvidenceData) → IfOk result (λ hulls. AreHeld e hulls.items) }
{
    let mut hulls = Vec::with_capacity(alloc, count)?;
    for _ in 0..count {
        hulls.push(None)?;
    }
    Ok(hulls)
}

/// The hulls of readings, each in its reading's place, found in the order of the readings' ticks:
/// look-ups in any order took seven times as long.
fn hulls_in_place(
    alloc: Global,
    finder: &HullFinder,
    evidence: &Evidence,
    readings: &[Reading],
) -> Result<Vec<Option<HullOver>>, AllocError>
    requires evidence { IsLawfulEvidence evidence.now }
    requires finder { IsFinderFor (evidence_data evidence.now).claim
        (evidence_data evidence.now).collection.exchanges finder.now }
    requires readings { All (λ r. IsLawfulReading (reading_data r)) readings.now }
    ensures held { IfOk result (λ hulls. AreHeld (evidence_data evidence.now) hulls.items) }
{
    let numbers = numbers_in_order(alloc, readings)?;
    let mut hulls = no_hulls(alloc, readings.len())?;
    for (_, number) in numbers.iter() {
        put_hull(hulls.as_mut_slice(), finder, evidence, readings, *number);
    }
    Ok(hulls)
}

/// The hull of a reading: the one that stands in the place with its number, or else a new one.
fn hull_for(
    hulls: &[Option<HullOver>],
    finder: &HullFinder,
    evidence: &Evidence,
    number: usize,
    reading: &Reading,
) -> HullOver
    requires evidence { IsLawfulEvidence evidence.now }
    requires finder { IsFinderFor (evidence_data evidence.now).claim
        (evidence_data evidence.now).collection.exchanges finder.now }
    requires lawful { IsLawfulReading (reading_data reading.now) }
    requires hulls { IsHeldAsNumbered (evidence_data evidence.now) hulls.now number }
    ensures begin { result.begin ≡ reading.now.begin }
    ensures end { result.end ≡ reading.now.end }
    ensures held { IsHeldOver (evidence_data evidence.now) result }
{
    if let Some(Some(found)) = hulls.get(number)
        && found.begin == reading.begin
        && found.end == reading.end
    {
        *found
    } else {
        hull_over(finder, evidence, reading.begin, reading.end)
    }
}

/// The hulls of readings, in their order.
fn found_over(
    alloc: Global,
    evidence: &Evidence,
    readings: &[Reading],
) -> Result<Vec<HullOver>, AllocError>
    requires evidence { IsLawfulEvidence evidence.now }
    requires readings { All (λ r. IsLawfulReading (reading_data r)) readings.now }
    ensures of { IfOk result (λ found. are_of (map reading_data readings.now) found.items ≡ true) }
    ensures held { IfOk result (λ found. All (IsHeldOver (evidence_data evidence.now))
        found.items) }
{
    let finder = finder_for(alloc, evidence)?;
    let hulls = hulls_in_place(alloc, &finder, evidence, readings)?;
    let mut found = Vec::with_capacity(alloc, readings.len())?;
    for (number, reading) in readings.iter().enumerate() {
        found.push(hull_for(hulls.as_slice(), &finder, evidence, number, reading))?;
    }
    Ok(found)
}

/// The hull in a place.
fn hull_in(found: &[HullOver], number: usize) -> Hull
    ensures { result ≡ hull_there (slice_get found.now number) }
{
    match found.get(number) {
        Some(found) => found.hull,
        None => Hull::Unbounded,
    }
}

/// Adds the lines of readings, in their order, each with its hull.
fn add_rows(
    text: &mut Vec<u8>,
    style: Style,
    readings: &[Reading],
    found: &[HullOver],
) -> Result<(), AllocError>
    ensures { IfOk result (λ _. text.new.items ≡ text.old.items
        ++ rows_from (spec.hull_row style found.now) 0 (map reading_data readings.now)) }
{
    for (number, reading) in readings.iter().enumerate() {
        add_reading(text, style, reading, hull_in(found, number))?;
    }
    Ok(())
}

/// The whole text for readings and their hulls.
fn hulls_text(
    alloc: Global,
    style: Style,
    readings: &[Reading],
    found: &[HullOver],
) -> Result<Vec<u8>, AllocError>
    ensures { IfOk result (λ text. text.items ≡
        spec.hulls_text style (map reading_data readings.now) found.now) }
{
    let mut text = Vec::new(alloc);
    add_heading(&mut text, style)?;
    add_rows(&mut text, style, readings, found)?;
    Ok(text)
}

impl Question for ReadingsByCovers {
    type Second = Times;

    type Finding = Vec<HullOver>;

    ghost asks = { λ _. readings_by_covers };

    ghost finding = { λ found. hulls_finding found.items };

    ghost IsFound = { λ _ _ times _ found. are_of (times_data times) found.items ≡ true };

    #[tactic(auto, using(crate::proofs::Showing::memory_unfound))]
    fn find(
        self,
        alloc: Global,
        _style: Style,
        second: &Times,
        evidence: &Evidence,
    ) -> Result<Vec<HullOver>, RunFault> {
        match found_over(alloc, evidence, second.readings.as_slice()) {
            Ok(found) => Ok(found),
            Err(AllocError) => Err(RunFault::Memory),
        }
    }

    fn tell<S: Sink>(
        self,
        alloc: Global,
        style: Style,
        second: &Times,
        evidence: &Evidence,
        found: &Vec<HullOver>,
        out: &mut S,
    ) -> Result<Outcome, RunFault> {
        let text = hulls_text(alloc, style, second.readings.as_slice(), found.as_slice());
        publish_text(out, text, Outcome::Yes)
    }
}
