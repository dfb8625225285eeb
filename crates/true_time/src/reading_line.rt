//! The text of many readings.

ghost use Rattle.std.specs.Prelude.{◌≡◌, ◌+◌, ◌≤◌, ◌++◌, ◌^◌, ◌-ℤ◌, pos, true, unsigned_abs, IfOk, IsTrue, All, length, map};
ghost use Rattle.line_writer.specs.declared.line.TheConstants.{CAPACITY};
ghost use Rattle.line_writer.specs.Field.{room_of};
ghost use Rattle.audit_text.specs.Table.{rows_from};
ghost use Rattle.true_time.specs.Common.{AreSamplesOf, IsLawfulReading, IsTabled, OfTables, data_of, field_data, line_of, reading_data};
ghost use Rattle.true_time.specs.FoundHulls.{AreHullsOf};
ghost use Rattle.true_time.specs.ReadingLine as spec;
ghost use Rattle.true_time.specs.ReadingLine.{reading_line};

use crate::found_hulls::{SmallHull, hull_at, hulls_of};
use crate::hull::tables_for;
use audit_text::{hull_low, is_plain};
use claim_file::Claim;
use intersection::kinds::Hull;
use line_writer::{Field, Line, Style, put_fields};
use reading_time::Reading;
use sample_interval::SampleSource;
use std::alloc::{AllocError, Global};
use sweep::{BestTable, Places};

const BLANKS: &str = "                              ";

const HEADING: &str = "                       reading   low error ms  high error ms             \
earliest true time               latest true time\n";

/// The style of the fields.
pub(crate) fn row_style(style: Style) -> Style
    ensures { result ≡ spec.row_style style }
{
    if is_plain(style) {
        Style::Plain
    } else {
        Style::Columns
    }
}

/// Adds the headings of lines of readings, for a person.
#[tactic(auto, unfolding(crate::specs::ReadingLine::reading_heading))]
pub fn add_heading(text: &mut Vec<u8>, style: Style) -> Result<(), AllocError>
    ensures { IfOk result (λ _. text.new.items ≡ text.old.items ++ spec.reading_heading style) }
{
    if is_plain(style) {
        return Ok(());
    }
    text.extend_from_slice(HEADING.as_bytes())
}

/// What stands before a reading of so many bytes.
fn front_of(style: Style, count: usize) -> &'static [u8]
    requires { count ≤ 30 }
    ensures { result.now ≡ spec.front_of style count }
{
    if is_plain(style) {
        b"reading "
    } else {
        &BLANKS.as_bytes()[..30 - count]
    }
}

/// Adds a reading as it is written.
fn add_written(text: &mut Vec<u8>, style: Style, written: &[u8]) -> Result<(), AllocError>
    requires { length written.now ≤ 30 }
    ensures { IfOk result (λ _. text.new.items ≡ text.old.items ++ spec.written style written.now) }
{
    text.extend_from_slice(front_of(style, written.len()))?;
    text.extend_from_slice(written)
}

/// Adds a line of these fields.
pub(crate) fn add_fields(
    text: &mut Vec<u8>,
    style: Style,
    fields: &[Field<'_>],
) -> Result<(), AllocError>
    requires { room_of (map field_data fields.now) + 1 ≤ CAPACITY }
    ensures { IfOk result (λ _. text.new.items ≡
        text.old.items ++ line_of style (map field_data fields.now)) }
{
    let mut line = Line::new();
    line.put_byte(b'\n');
    put_fields(&mut line, style, fields);
    text.extend_from_slice(line.as_bytes())
}

/// Whether both ends are within 2^100 ticks of zero.
pub(crate) fn are_near(low: i128, high: i128) -> bool
    ensures exact { result ≡ spec.are_near low high }
    ensures low { IsTrue result → unsigned_abs low ≤ 2 ^ 100 }
    ensures high { IsTrue result → unsigned_abs high ≤ 2 ^ 100 }
{
    low.unsigned_abs() <= 1 << 100 && high.unsigned_abs() <= 1 << 100
}

/// A tick less an error.
pub(crate) fn less(tick: u64, error: i128) -> i128
    requires { unsigned_abs error ≤ 2 ^ 100 }
    ensures { result ≡ pos tick -ℤ error }
{
    i128::from(tick) - error
}

/// Adds a hull whose ends aren't near.
fn add_ends(text: &mut Vec<u8>, style: Style, low: i128, high: i128) -> Result<(), AllocError>
    ensures { IfOk result (λ _. text.new.items ≡
        text.old.items ++ line_of style (spec.hull_fields low high)) }
{
    let fields = [
        Field::Nothing,
        Field::Label("hull"),
        Field::Low(low),
        Field::High(high),
    ];
    add_fields(text, style, &fields)
}

/// Adds the hull of a reading, whose ends are near, and its true times.
fn add_near(
    text: &mut Vec<u8>,
    style: Style,
    reading: &Reading,
    low: i128,
    high: i128,
) -> Result<(), AllocError>
    requires low { unsigned_abs low ≤ 2 ^ 100 }
    requires high { unsigned_abs high ≤ 2 ^ 100 }
    ensures { IfOk result (λ _. text.new.items ≡ text.old.items
        ++ line_of style (spec.bounded_fields true (reading_data reading.now) low high)) }
{
    let fields = [
        Field::Nothing,
        Field::Label("hull"),
        Field::Low(low),
        Field::High(high),
        Field::Label("true"),
        Field::TimeBelow(less(reading.begin, high)),
        Field::TimeAbove(less(reading.end, low)),
    ];
    add_fields(text, style, &fields)
}

/// Adds the hull of a reading, and its true times if its ends are near.
fn add_bounded(
    text: &mut Vec<u8>,
    style: Style,
    reading: &Reading,
    low: i128,
    high: i128,
    near: bool,
) -> Result<(), AllocError>
    requires low { IsTrue near → unsigned_abs low ≤ 2 ^ 100 }
    requires high { IsTrue near → unsigned_abs high ≤ 2 ^ 100 }
    ensures { IfOk result (λ _. text.new.items ≡ text.old.items
        ++ line_of style (spec.bounded_fields near (reading_data reading.now) low high)) }
{
    if near {
        add_near(text, style, reading, low, high)
    } else {
        add_ends(text, style, low, high)
    }
}

/// Adds what is known of a reading: the hull, and the true times.
fn add_times(
    text: &mut Vec<u8>,
    style: Style,
    reading: &Reading,
    hull: Hull,
) -> Result<(), AllocError>
    ensures { IfOk result (λ _. text.new.items ≡ text.old.items
        ++ line_of style (spec.time_fields (reading_data reading.now) hull)) }
{
    match hull {
        Hull::Bounded { lo, hi } => {
            let near = are_near(lo, hi);
            add_bounded(text, style, reading, lo, hi, near)
        }
        _ => {
            let fields = [Field::Nothing, Field::Label("hull"), hull_low(hull)];
            add_fields(text, style, &fields)
        }
    }
}

/// Adds the line of a reading: as it is written, the hull of the clock's error over the ticks for
/// which it stands, in ticks of 2^-32 s, and the earliest and the latest true time, in Unix ticks.
#[tactic(auto, unfolding(crate::specs::ReadingLine::reading_line))]
pub fn add_reading(
    text: &mut Vec<u8>,
    style: Style,
    reading: &Reading,
    hull: Hull,
) -> Result<(), AllocError>
    ensures { IfOk result (λ _. text.new.items ≡
        text.old.items ++ reading_line style (reading_data reading.now) hull) }
{
    add_written(text, style, reading.text.as_slice())?;
    add_times(text, row_style(style), reading, hull)
}

/// Adds the lines of readings, in their order, with those of their hulls that were found.
fn add_readings(
    text: &mut Vec<u8>,
    style: Style,
    tables: &[BestTable],
    claim: &Claim,
    hulls: &[Option<SmallHull>],
    readings: &[Reading],
) -> Result<(), AllocError>
    requires tables { IsTabled (data_of claim.now) tables.now }
    requires hulls { OfTables (data_of claim.now) tables.now (λ samples.
        AreHullsOf samples (data_of claim.now) readings.now hulls.now) }
    requires readings { All (λ r. IsLawfulReading (reading_data r)) readings.now }
    ensures { IfOk result (λ _. OfTables (data_of claim.now) tables.now (λ samples.
        text.new.items ≡ text.old.items ++ rows_from (spec.reading_row style samples
        (data_of claim.now)) 0 (map reading_data readings.now))) }
{
    let mut places = Places::default();
    for (number, reading) in readings.iter().enumerate() {
        let hull = hull_at(hulls, number, tables, &mut places, claim, reading);
        add_reading(text, style, reading, hull)?;
    }
    Ok(())
}

/// The text of `at` for many readings: a line for each, with the reading as it is written, the hull
/// of the clock's error over the ticks for which it stands, in ticks of 2^-32 s, and the earliest
/// and the latest true time, in Unix ticks.
///
/// The samples are at most 1,000,000, and of the claim.
#[tactic(auto, unfolding(crate::specs::ReadingLine::readings_text))]
pub fn readings_text<S: SampleSource>(
    alloc: Global,
    style: Style,
    samples: S,
    claim: &Claim,
    readings: &[Reading],
) -> Result<Vec<u8>, AllocError>
    requires samples { AreSamplesOf (data_of claim.now) (S.samples samples) }
    requires few { length (S.samples samples) ≤ 1_000_000 }
    requires readings { All (λ r. IsLawfulReading (reading_data r)) readings.now }
    ensures exact { IfOk result (λ text. text.items ≡ spec.readings_text style
        (S.samples samples) (data_of claim.now) (map reading_data readings.now)) }
{
    let tables = tables_for(alloc, samples, claim)?;
    let hulls = hulls_of(alloc, tables.as_slice(), claim, readings)?;
    let mut text = Vec::new(alloc);
    add_heading(&mut text, style)?;
    add_readings(
        &mut text,
        style,
        tables.as_slice(),
        claim,
        hulls.as_slice(),
        readings,
    )?;
    Ok(text)
}
