//! The hulls of many readings, found in the order of the readings' ticks and not in their own, and
//! kept in half the room.
//!
//! A look-up in the tables begins at the places of the last one: what is near is found in few
//! steps, and what is far by a search through memory. For readings in any order such searches took
//! nine tenths of the time.

ghost use Rattle.std.specs.Prelude.{◌≡◌, All, IfOk, IfSome, None};
ghost use Rattle.true_time.specs.Common.{IsLawfulReading, IsTabled, OfTables, data_of, reading_data};
ghost use Rattle.true_time.specs.FoundHulls.{AreHullsOf, IsHullAt, widened};
ghost use Rattle.true_time.specs.TrueTime.{hull_of};

use crate::hull::hull_over;
use claim_file::Claim;
use intersection::kinds::Hull;
use reading_time::Reading;
use std::alloc::{AllocError, Global};
use sweep::{BestTable, Places};

/// A hull with ends of 64 bits.
#[derive(Clone, Copy)]
pub(crate) enum SmallHull {
    /// Nothing is known of the error.
    Unbounded,
    /// No error is possible.
    Empty,
    /// From the lowest to the highest error, in ticks.
    Bounded { lo: i64, hi: i64 },
}

impl SmallHull {
    /// The hull, if it has no end that needs more bits.
    fn of(hull: Hull) -> Option<SmallHull>
        ensures { IfSome result (λ small. widened small ≡ hull) }
    {
        match hull {
            Hull::Unbounded => Some(SmallHull::Unbounded),
            Hull::Empty => Some(SmallHull::Empty),
            Hull::Bounded { lo, hi } => match (i64::try_from(lo), i64::try_from(hi)) {
                (Ok(lo), Ok(hi)) => Some(SmallHull::Bounded { lo, hi }),
                _ => None,
            },
        }
    }

    fn widened(self) -> Hull
        ensures { result ≡ widened self }
    {
        match self {
            SmallHull::Unbounded => Hull::Unbounded,
            SmallHull::Empty => Hull::Empty,
            SmallHull::Bounded { lo, hi } => Hull::Bounded {
                lo: i128::from(lo),
                hi: i128::from(hi),
            },
        }
    }
}

/// The numbers of readings, each behind its reading's first tick, in the order of these ticks.
///
/// No clause says so, since the order only makes the look-ups fast: no hull depends on it.
pub fn numbers_in_order(
    alloc: Global,
    readings: &[Reading],
) -> Result<Vec<(u64, usize)>, AllocError> {
    let mut numbers = Vec::with_capacity(alloc, readings.len())?;
    for (number, reading) in readings.iter().enumerate() {
        numbers.push((reading.begin, number))?;
    }
    numbers.sort_unstable();
    Ok(numbers)
}

/// A place for each of so many hulls, none of which is found yet.
fn no_hulls(alloc: Global, count: usize) -> Result<Vec<Option<SmallHull>>, AllocError>
    ensures { IfOk result (λ hulls. All (λ hull. hull ≡ None) hulls.items) }
{
    let mut hulls = Vec::with_capacity(alloc, count)?;
    for _ in 0..count {
        hulls.push(None)?;
    }
    Ok(hulls)
}

/// Puts the hull of the reading with this number into its place, if it is small. The tables' places
/// are hints.
fn find_hull(
    hulls: &mut [Option<SmallHull>],
    tables: &[BestTable],
    places: &mut Places,
    claim: &Claim,
    readings: &[Reading],
    number: usize,
)
    requires tables { IsTabled (data_of claim.now) tables.now }
    requires readings { All (λ r. IsLawfulReading (reading_data r)) readings.now }
    requires hulls { OfTables (data_of claim.now) tables.now (λ samples.
        AreHullsOf samples (data_of claim.now) readings.now hulls.old) }
    ensures { OfTables (data_of claim.now) tables.now (λ samples.
        AreHullsOf samples (data_of claim.now) readings.now hulls.new) }
{
    if number < hulls.len() && number < readings.len() {
        let reading = &readings[number];
        hulls[number] = SmallHull::of(hull_over(tables, places, claim, reading.begin, reading.end));
    }
}

/// The hulls of readings, each in the place with its reading's number, as far as they are small.
pub(crate) fn hulls_of(
    alloc: Global,
    tables: &[BestTable],
    claim: &Claim,
    readings: &[Reading],
) -> Result<Vec<Option<SmallHull>>, AllocError>
    requires tables { IsTabled (data_of claim.now) tables.now }
    requires readings { All (λ r. IsLawfulReading (reading_data r)) readings.now }
    ensures { IfOk result (λ hulls. OfTables (data_of claim.now) tables.now (λ samples.
        AreHullsOf samples (data_of claim.now) readings.now hulls.items)) }
{
    let numbers = numbers_in_order(alloc, readings)?;
    let mut hulls = no_hulls(alloc, readings.len())?;
    let mut places = Places::default();
    for (_, number) in numbers.iter() {
        find_hull(
            hulls.as_mut_slice(),
            tables,
            &mut places,
            claim,
            readings,
            *number,
        );
    }
    Ok(hulls)
}

/// The hull of a reading: the one that stands in the place with its number, or else by the tables.
pub(crate) fn hull_at(
    hulls: &[Option<SmallHull>],
    number: usize,
    tables: &[BestTable],
    places: &mut Places,
    claim: &Claim,
    reading: &Reading,
) -> Hull
    requires tables { IsTabled (data_of claim.now) tables.now }
    requires lawful { IsLawfulReading (reading_data reading.now) }
    requires found { OfTables (data_of claim.now) tables.now (λ samples.
        IsHullAt samples (data_of claim.now) hulls.now number (reading_data reading.now)) }
    ensures { OfTables (data_of claim.now) tables.now (λ samples.
        result ≡ hull_of samples (data_of claim.now) (reading_data reading.now)) }
{
    match hulls.get(number) {
        Some(Some(small)) => small.widened(),
        _ => hull_over(tables, places, claim, reading.begin, reading.end),
    }
}
