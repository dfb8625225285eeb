//! One way through low marks and high marks.

ghost use Rattle.std.specs.Prelude.{◌≤◌, ◌↔◌, IsTrue, length, All};
ghost use Rattle.std.specs.List.{AllWithin};
ghost use Rattle.sample_interval.specs.Widening.{IsRate};
ghost use Rattle.error_marks.specs.Direction.{Precedes, AllKeepBelow, IsInOrder};
ghost use Rattle.error_marks.specs.Passage.{IsHighest, HasPassed};
ghost use Rattle.error_marks.specs.Range.{IsWithinRange};

use crate::direction::Direction;
use crate::mark::Mark;

/// How far the low marks were passed.
#[derive(Clone, Copy)]
pub struct Passage {
    /// How many were passed.
    pub passed: usize,
    /// Which of them has the highest line.
    pub highest: usize,
}

/// Whether the first mark stands no further on than the second.
fn precedes(a: Mark, b: Mark) -> bool
    ensures { IsTrue result ↔ Precedes a b }
{
    a.place <= b.place
}

/// Passes the low marks that precede a high mark, the first of which were passed before.
fn advance(
    direction: Direction,
    drift_ppb: u32,
    lows: &[Mark],
    from: Passage,
    high: Mark,
) -> Passage
    requires rate { IsRate drift_ppb }
    requires lows { All IsWithinRange lows.now }
    requires high { IsWithinRange high }
    requires within { from.passed ≤ length lows.now }
    requires precede { AllWithin (λ low. Precedes low high) lows.now 0 from.passed }
    requires highest { IsHighest direction drift_ppb lows.now from }
    ensures { HasPassed direction drift_ppb lows.now high result }
{
    let mut passed = from.passed;
    let mut highest = from.highest;
    while passed < lows.len() {
        if !precedes(lows[passed], high) {
            return Passage { passed, highest };
        }
        if direction.is_below(drift_ppb, lows[highest], lows[passed]) {
            highest = passed;
        }
        passed += 1;
    }
    Passage { passed, highest }
}

/// Whether no low mark that precedes a high mark has the higher line. Both lists are in order.
pub fn keep_below(direction: Direction, drift_ppb: u32, lows: &[Mark], highs: &[Mark]) -> bool
    requires rate { IsRate drift_ppb }
    requires lows { All IsWithinRange lows.now }
    requires highs { All IsWithinRange highs.now }
    requires lows_in_order { IsInOrder lows.now }
    requires highs_in_order { IsInOrder highs.now }
    ensures { IsTrue result ↔ AllKeepBelow direction drift_ppb lows.now highs.now }
{
    let mut passage = Passage {
        passed: 0,
        highest: 0,
    };
    for high in highs {
        passage = advance(direction, drift_ppb, lows, passage, *high);
        if passage.passed > 0 && !direction.is_below(drift_ppb, lows[passage.highest], *high) {
            return false;
        }
    }
    true
}
