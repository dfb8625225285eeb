//! Tables of the best samples, which are asked for any piece.

ghost use Rattle.std.specs.Prelude.{◌≡◌, ℕ, ◌<◌, ◌≤◌, ◌-◌, ◌/◌, ◌^◌, ◌↔◌, List, length, map, All, Some, IfOk, IfSome, IsNone, pos, ◌-ℤ◌, neg_ℤ};
ghost use Rattle.sweep.specs.Common.{IsLawfulSample, IsRate, billion, Sample, HasNoSample, IsPiece};
ghost use Rattle.sweep.specs.Extreme.{IsLawfulExtreme};
ghost use Rattle.sweep.specs.UnsignedStretch.{IsLawfulStretch};
ghost use Rattle.sweep.specs.Table.{best_part, best_parts, AreMaximaBothWays, IsLevelOver, IsTableOf, AreTablesOf};
ghost use Rattle.sweep.specs.declared.extreme.Extreme.{Extreme as TheExtreme};

use crate::extreme::{Extreme, extremes_of, servers_of};
use crate::places::{Near, NearTable, Places};
use crate::prefix_maximum::{PrefixMaximum, early_rise, maxima_of};
use crate::tick::{from_origin, from_zero, mirrored_tick};
use crate::unsigned_stretch::UnsignedStretch;
use arrayvec::ArrayVec;
use era_unfold::TICKS_PER_SECOND;
use intersection::kinds::Interval;
use sample_interval::laws::widening_is_one_number;
use sample_interval::{PARTS, SampleSource};
use span_cover::Part;
use std::alloc::{AllocError, Global};

/// The maxima of extremes, and of the same with time running backwards.
#[derive(Drop)]
pub struct Maxima {
    pub early: Vec<PrefixMaximum>,
    pub late: Vec<PrefixMaximum>,
}

/// A server's samples, laid out so that its interval over any piece is found by a search.
#[derive(Drop)]
pub struct BestTable {
    pub(crate) server: u8,
    pub(crate) lows: Maxima,
    pub(crate) highs: Maxima,
}

/// A table for each of the first `count` servers that has a sample, in their order. Its one error
/// is that it is out of memory.
///
/// The rate is up to 500,000,000 parts in 10^9, and the samples are at most 1,000,000.
pub fn tables_of<S: SampleSource>(
    alloc: Global,
    samples: S,
    count: u8,
    drift_ppb: u32,
) -> Result<Vec<BestTable>, AllocError>
    requires samples { All IsLawfulSample (S.samples samples) }
    requires few { length (S.samples samples) ≤ 1_000_000 }
    requires rate { IsRate drift_ppb }
    ensures few { IfOk result (λ tables. length tables.items ≤ count) }
    ensures are { IfOk result (λ tables.
        AreTablesOf (S.samples samples) count drift_ppb tables.items) }
{
    let servers = servers_of(alloc, samples)?;
    let mut tables = Vec::new(alloc);
    for server in 0..count {
        let table = table_of(alloc, samples, servers.as_slice(), server, drift_ppb)?;
        if let Some(table) = table {
            tables.push(table)?;
        }
    }
    Ok(tables)
}

/// The table of a server, if it has a sample.
fn table_of<S: SampleSource>(
    alloc: Global,
    samples: S,
    servers: &[u8],
    server: u8,
    drift_ppb: u32,
) -> Result<Option<BestTable>, AllocError>
    requires samples { All IsLawfulSample (S.samples samples) }
    requires few { length (S.samples samples) ≤ 1_000_000 }
    requires servers { servers.now ≡ map (λ sample. sample.server) (S.samples samples) }
    requires rate { IsRate drift_ppb }
    ensures none { IfOk result (λ found. IsNone found ↔ HasNoSample (S.samples samples) server) }
    ensures of_server { IfOk result (λ found. IfSome found (λ table. table.server ≡ server)) }
    ensures table { IfOk result (λ found. IfSome found
        (IsTableOf (S.samples samples) drift_ppb)) }
{
    let (lows, highs) = extremes_of(alloc, samples, servers, server)?;
    if lows.is_empty() {
        return Ok(None);
    }
    let lows = both_ways(alloc, lows.as_slice(), drift_ppb)?;
    let highs = both_ways(alloc, highs.as_slice(), drift_ppb)?;
    Ok(Some(BestTable {
        server,
        lows,
        highs,
    }))
}

/// The maxima of extremes both ways.
fn both_ways(alloc: Global, extremes: &[Extreme], drift_ppb: u32) -> Result<Maxima, AllocError>
    requires extremes { All IsLawfulExtreme extremes.now }
    requires few { length extremes.now ≤ 1_000_000 }
    requires rate { IsRate drift_ppb }
    ensures { IfOk result (λ maxima. AreMaximaBothWays drift_ppb extremes.now maxima) }
{
    let early = maxima_of(alloc, extremes, false, drift_ppb)?;
    let late = maxima_of(alloc, extremes, true, drift_ppb)?;
    Ok(Maxima { early, late })
}

/// The highest level that an extreme reaches over a stretch.
fn level_over(maxima: &Maxima, near: &mut Near, stretch: UnsignedStretch, drift_ppb: u32) -> u128
    requires stretch { IsLawfulStretch stretch }
    requires rate { IsRate drift_ppb }
    ensures small { result ≤ 2 ^ 100 }
    ensures level { (extremes : List TheExtreme) → AreMaximaBothWays drift_ppb extremes maxima.now →
        All IsLawfulExtreme extremes → 0 < length extremes →
        IsLevelOver drift_ppb extremes stretch result }
{
    // What the proof knows of widenings.
    widening_is_one_number();
    let early = early_rise(maxima.early.as_slice(), &mut near.early, stretch, drift_ppb);
    let mirrored = UnsignedStretch {
        begin: mirrored_tick(stretch.end),
        end: mirrored_tick(stretch.begin),
    };
    let late = early_rise(maxima.late.as_slice(), &mut near.late, mirrored, drift_ppb);
    let level = level_of(early.max(late), second_before(near.level), drift_ppb);
    near.level = level;
    near.is_late = early < late;
    level
}

/// The level that an extreme reaches which stands so far above what it falls. If it is some four
/// seconds above `from` at most, 64 bits are divided, which takes a fifth of the time.
pub fn level_of(rise: u128, from: u128, drift_ppb: u32) -> u128
    requires rate { IsRate drift_ppb }
    requires in_range { from ≤ 2 ^ 96 }
    ensures { result ≡ rise / (billion - drift_ppb) }
{
    let parts = PARTS - u128::from(drift_ppb);
    if let Some(rest) = rise.checked_sub(parts * from)
        && let Ok(rest) = u64::try_from(rest)
    {
        return from + u128::from(rest / parts as u64);
    }
    rise / parts
}

/// A second before a level.
pub fn second_before(level: u128) -> u128
    ensures { result ≤ 2 ^ 96 }
{
    level.saturating_sub(TICKS_PER_SECOND).min(1 << 96)
}

/// What a server says over a piece.
fn part_over(
    table: &BestTable,
    near: &mut NearTable,
    begin: i128,
    end: i128,
    drift_ppb: u32,
) -> Part
    requires piece { IsPiece begin end }
    requires rate { IsRate drift_ppb }
    ensures { (samples : List Sample) → IsTableOf samples drift_ppb table.now →
        best_part samples begin end drift_ppb table.now.server ≡ Some result }
{
    let stretch = UnsignedStretch {
        begin: from_origin(begin),
        end: from_origin(end),
    };
    let low = level_over(&table.lows, &mut near.lows, stretch, drift_ppb);
    let high = level_over(&table.highs, &mut near.highs, stretch, drift_ppb);
    Part {
        server: table.server,
        interval: interval_between(low, high),
    }
}

/// The interval of the greatest low end and of the greatest high end with its sign turned, both
/// counted from the origin.
fn interval_between(low: u128, high: u128) -> Interval
    requires low { low ≤ 2 ^ 100 }
    requires high { high ≤ 2 ^ 100 }
    ensures lo { result.lo ≡ pos low -ℤ pos (2 ^ 75) }
    ensures hi { result.hi ≡ neg_ℤ (pos high -ℤ pos (2 ^ 75)) }
{
    Interval {
        lo: from_zero(low),
        hi: -from_zero(high),
    }
}

/// What each server that has a sample says over the piece `begin` to `end`, in the order of the
/// servers: the interval of its best samples there.
///
/// The piece is of Unix ticks, from 0 to below 2^64. The rate is the one that the tables were made
/// for, and they are at most 32. The nearer the piece lies to the last one that was asked for with
/// these places the fewer steps it takes, and where it lies far at most twice as many as a search
/// from nothing. What is found doesn't depend on the places. They say afterwards where it was.
pub fn parts_near(
    tables: &[BestTable],
    places: &mut Places,
    begin: i128,
    end: i128,
    drift_ppb: u32,
) -> ArrayVec<Part, 32>
    requires few { length tables.now ≤ 32 }
    requires piece { IsPiece begin end }
    requires rate { IsRate drift_ppb }
    ensures { (samples : List Sample) (count : ℕ) →
        AreTablesOf samples count drift_ppb tables.now →
        result.items ≡ best_parts samples count begin end drift_ppb }
{
    let mut parts = ArrayVec::new();
    for (index, table) in tables.iter().enumerate() {
        let near = &mut places.near[index];
        parts.push(part_over(table, near, begin, end, drift_ppb));
    }
    parts
}
