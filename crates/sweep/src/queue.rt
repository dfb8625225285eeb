//! The extremes in the order in which they become early.

ghost use Rattle.std.specs.Prelude.{◌≡◌, ◌≤◌, ◌<◌, length, All, IfOk};
ghost use Rattle.sample_interval.specs.Widening.{IsRate};
ghost use Rattle.sweep.specs.Extreme.{IsLawfulExtreme, seen};
ghost use Rattle.sweep.specs.Queue.{AreArrivalsOf, IsQueueOf, index_at};

use crate::extreme::{Extreme, seen};
use sample_interval::PARTS;
use std::alloc::{AllocError, Global};

/// An extreme that becomes early at some stretch, and stays so.
#[derive(Clone, Copy)]
pub struct Arrival {
    /// Twice the middle of the extreme's window.
    pub at: u128,
    /// The extreme's height.
    pub height: u128,
    /// The extreme's index in its list.
    pub index: u32,
}

/// The arrivals of the extremes, in order, with time running forwards or backwards.
pub fn queue_of(
    alloc: Global,
    extremes: &[Extreme],
    backwards: bool,
    drift_ppb: u32,
) -> Result<Vec<Arrival>, AllocError>
    requires extremes { All IsLawfulExtreme extremes.now }
    requires few { length extremes.now ≤ 1_000_000 }
    requires rate { IsRate drift_ppb }
    ensures { IfOk result (λ queue.
        IsQueueOf drift_ppb (seen backwards extremes.now) queue.items) }
{
    let mut queue = arrivals_of(alloc, extremes, backwards, drift_ppb)?;
    queue.sort_by_key(|arrival| arrival.at)?;
    Ok(queue)
}

/// The arrivals in the order of the extremes, or with time running backwards from the last one on:
/// so they are mostly in order.
fn arrivals_of(
    alloc: Global,
    extremes: &[Extreme],
    backwards: bool,
    drift_ppb: u32,
) -> Result<Vec<Arrival>, AllocError>
    requires extremes { All IsLawfulExtreme extremes.now }
    requires few { length extremes.now ≤ 1_000_000 }
    requires rate { IsRate drift_ppb }
    ensures { IfOk result (λ arrivals.
        AreArrivalsOf drift_ppb backwards (seen backwards extremes.now) arrivals.items) }
{
    let rate = u128::from(drift_ppb);
    let count = extremes.len();
    let mut arrivals = Vec::with_capacity(alloc, count)?;
    for turn in 0..count {
        let index = index_at(turn, count, backwards);
        let extreme = seen(&extremes[index], backwards);
        arrivals.push(Arrival {
            at: extreme.from + extreme.to,
            height: (PARTS - rate) * extreme.end + rate * extreme.from,
            index: index as u32,
        })?;
    }
    Ok(arrivals)
}

/// The index of the extreme whose turn it is.
fn index_at(turn: usize, count: usize, backwards: bool) -> usize
    requires { turn < count }
    ensures is { result ≡ index_at backwards count turn }
    ensures within { result < count }
{
    if backwards { count - 1 - turn } else { turn }
}
