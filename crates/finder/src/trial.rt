//! Which number to try next, where an answer changes between two.

ghost use Rattle.std.specs.Prelude.{◌<◌, ◌≤◌};

/// The number to try next of those from `low` to below `high`, if the answer changes among them,
/// and most likely at `near`.
///
/// First `near` is tried, then what lies beside it, and then twice as far each time, and what lies
/// halfway as soon as that is nearer. So each turn doubles a distance or halves what
/// is left, and a search takes at most twice as many turns as its numbers have bits.
pub(crate) fn trial(low: u64, high: u64, near: u64) -> u64
    requires { low < high }
    ensures from_low { low ≤ result }
    ensures below_high { result < high }
{
    let half = (high - low) / 2;
    if near < low {
        low + (low - near - 1).min(half)
    } else if near < high {
        near
    } else {
        high - 1 - (near - high).min(half)
    }
}
