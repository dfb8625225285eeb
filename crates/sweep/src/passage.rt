//! The extremes that are early, while the stretches go by.

ghost use Rattle.std.specs.Prelude.{◌+◌, ◌≤◌, length, All, IfOk};
ghost use Rattle.sample_interval.specs.Widening.{IsRate};
ghost use Rattle.sweep.specs.Block.{AreBlocksOf, AreUpto};
ghost use Rattle.sweep.specs.Extreme.{IsLawfulExtreme, seen};
ghost use Rattle.sweep.specs.Lead.{IsLead};
ghost use Rattle.sweep.specs.Passage.{IsWantedOf, Reaches};
ghost use Rattle.sweep.specs.Queue.{AreInOrder, AreSmall, AreWithin};
ghost use Rattle.sweep.specs.UnsignedStretch.{IsLawfulStretch, MiddlesRise};
ghost use Rattle.sweep.specs.Top.{AreEarlyTops, AreTopsOver, IsTopOf};

use crate::block::Blocks;
use crate::extreme::Extreme;
use crate::lead::{Lead, lead_upto};
use crate::queue::{Arrival, queue_of};
use crate::table::{level_of, second_before};
use crate::top::Top;
use crate::unsigned_stretch::UnsignedStretch;
use sample_interval::PARTS;
use std::alloc::{AllocError, Global};

/// What has to be reached over a stretch: the highest level that is, and the height for it.
#[derive(Clone, Copy)]
pub struct Wanted {
    pub level: u128,
    pub height: u128,
}

/// The top of the extremes that are early, with time running forwards or backwards, over each of
/// the stretches.
pub fn early_tops(
    alloc: Global,
    extremes: &[Extreme],
    stretches: &[UnsignedStretch],
    backwards: bool,
    drift_ppb: u32,
) -> Result<Vec<Option<Top>>, AllocError>
    requires extremes { All IsLawfulExtreme extremes.now }
    requires few { length extremes.now ≤ 1_000_000 }
    requires stretches { All IsLawfulStretch stretches.now }
    requires in_order { MiddlesRise stretches.now }
    requires rate { IsRate drift_ppb }
    ensures { IfOk result (λ tops.
        AreEarlyTops drift_ppb (seen backwards extremes.now) stretches.now tops.items) }
{
    let queue = queue_of(alloc, extremes, backwards, drift_ppb)?;
    tops_over(
        alloc,
        queue.as_slice(),
        extremes.len(),
        stretches,
        drift_ppb,
    )
}

/// The top of the arrivals that come up to its middle, over each of the stretches. Their indices
/// are below `count`.
fn tops_over(
    alloc: Global,
    queue: &[Arrival],
    count: usize,
    stretches: &[UnsignedStretch],
    drift_ppb: u32,
) -> Result<Vec<Option<Top>>, AllocError>
    requires few { count ≤ 1_000_000 }
    requires within { AreWithin count queue.now }
    requires order { AreInOrder queue.now }
    requires small { AreSmall queue.now }
    requires stretches { All IsLawfulStretch stretches.now }
    requires in_order { MiddlesRise stretches.now }
    requires rate { IsRate drift_ppb }
    ensures { IfOk result (λ tops.
        AreTopsOver (Reaches drift_ppb queue.now) stretches.now tops.items) }
{
    let mut blocks = Blocks::new(alloc, count)?;
    let mut lead = Lead {
        limit: 0,
        index: 0,
        second: 0,
    };
    let mut next = 0;
    let mut near = 0;
    let mut tops = Vec::with_capacity(alloc, stretches.len())?;
    for k in 0..stretches.len() {
        let stretch = stretches[k];
        next = lead_upto(&mut lead, queue, next, stretch.begin + stretch.end);
        let top = top_over(lead, &mut blocks, queue, next, stretch, near, drift_ppb);
        near = top.map_or(near, |top| top.level);
        tops.push(top)?;
    }
    Ok(tops)
}

/// The top over a stretch, of the first `count` arrivals. Its level is looked for near another.
fn top_over(
    lead: Lead,
    blocks: &mut Blocks,
    queue: &[Arrival],
    count: usize,
    stretch: UnsignedStretch,
    near: u128,
    drift_ppb: u32,
) -> Option<Top>
    requires small { AreSmall queue.now }
    requires taken { blocks.old.taken ≤ count }
    requires are { AreBlocksOf queue.now blocks.old }
    requires upto { AreUpto queue.now (stretch.begin + stretch.end) count }
    requires leads { IsLead queue.now count lead }
    requires stretch { IsLawfulStretch stretch }
    requires rate { IsRate drift_ppb }
    ensures taken { blocks.new.taken ≤ count }
    ensures are { AreBlocksOf queue.now blocks.new }
    ensures top { IsTopOf (Reaches drift_ppb queue.now stretch) result }
{
    let wanted = wanted_of(lead, stretch, near, drift_ppb)?;
    // Mostly no other index reaches as high.
    let index = if lead.second <= wanted.height {
        lead.index as usize
    } else {
        blocks.first(queue, count, wanted.height)
    };
    Some(Top {
        level: wanted.level,
        index,
    })
}

/// What has to be reached over a stretch if this one leads, none if no level is. It's found by a
/// division of 64 bits if its level is near the one that is given.
fn wanted_of(lead: Lead, stretch: UnsignedStretch, near: u128, drift_ppb: u32) -> Option<Wanted>
    requires stretch { IsLawfulStretch stretch }
    requires rate { IsRate drift_ppb }
    ensures { IsWantedOf drift_ppb stretch lead result }
{
    let rate = u128::from(drift_ppb);
    let room = lead.limit.checked_sub(rate * stretch.end + 1)?;
    let level = level_of(room, second_before(near), drift_ppb);
    Some(Wanted {
        level,
        height: level * (PARTS - rate) + rate * stretch.end,
    })
}
