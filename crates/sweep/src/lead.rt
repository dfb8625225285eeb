//! The highest of the arrivals that have come.

ghost use Rattle.std.specs.Prelude.{◌≡◌, ℕ, ◌+◌, ◌<◌, ◌≤◌, ◌^◌, max, length, Some, slice_get};
ghost use Rattle.sweep.specs.Block.{AreUpto};
ghost use Rattle.sweep.specs.Lead.{IsLead};
ghost use Rattle.sweep.specs.Queue.{AreInOrder, AreSmall};
ghost use Rattle.sweep.specs.declared.queue.Arrival.{Arrival as TheArrival};

use crate::queue::Arrival;

/// The highest of the arrivals that have come.
#[derive(Clone, Copy)]
pub struct Lead {
    /// One more than its height, 0 if none has come.
    pub limit: u128,
    /// Its index.
    pub index: u32,
    /// No arrival of another index is as high as this.
    pub second: u128,
}

/// Takes in the arrivals from number `next` on that come up to a place, and says how many have come
/// by then.
pub fn lead_upto(lead: &mut Lead, queue: &[Arrival], next: usize, place: u128) -> usize
    requires in_order { AreInOrder queue.now }
    requires small { AreSmall queue.now }
    requires within { next ≤ length queue.now }
    requires upto { (i : ℕ) (a : TheArrival) → i < next → slice_get queue.now i ≡ Some a →
        a.at ≤ place }
    requires leads { IsLead queue.now next lead.old }
    ensures no_fewer { next ≤ result }
    ensures upto { AreUpto queue.now place result }
    ensures leads { IsLead queue.now result lead.new }
{
    let mut next = next;
    while next < queue.len() && queue[next].at <= place {
        *lead = lead_after(*lead, queue[next]);
        next += 1;
    }
    next
}

/// The lead once another has come.
fn lead_after(lead: Lead, arrival: Arrival) -> Lead
    requires { arrival.height < 2 ^ 110 }
    ensures higher { lead.limit < arrival.height + 1 → (result.limit ≡ arrival.height + 1)
        × (result.index ≡ arrival.index) × (result.second ≡ lead.limit) }
    ensures no_higher { arrival.height + 1 ≤ lead.limit → (result.limit ≡ lead.limit)
        × (result.index ≡ lead.index) × (result.second ≡ max lead.second (arrival.height + 1)) }
{
    let limit = arrival.height + 1;
    if lead.limit < limit {
        Lead {
            limit,
            index: arrival.index,
            second: lead.limit,
        }
    } else {
        Lead {
            limit: lead.limit,
            index: lead.index,
            second: lead.second.max(limit),
        }
    }
}
