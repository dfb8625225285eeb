//! A low mark and a high mark.

ghost use Rattle.std.specs.Prelude.{◌↔◌, IsTrue};
ghost use Rattle.sample_interval.specs.Widening.{IsRate};
ghost use Rattle.error_marks.specs.Mark.{AreCompatible};
ghost use Rattle.error_marks.specs.Range.{IsWithinRange};

use crate::line::{falling_line, rising_line};
use crate::mark::Mark;

/// Whether some course of the error keeps both marks.
///
/// The rate is up to 500,000,000 parts in 10^9 of true time, and each number of ticks lies from
/// -2^73 to 2^73.
pub fn are_compatible(drift_ppb: u32, low: Mark, high: Mark) -> bool
    requires rate { IsRate drift_ppb }
    requires low { IsWithinRange low }
    requires high { IsWithinRange high }
    ensures { IsTrue result ↔ AreCompatible drift_ppb low high }
{
    if low.place <= high.place {
        falling_line(drift_ppb, low) <= falling_line(drift_ppb, high)
    } else {
        rising_line(drift_ppb, low) <= rising_line(drift_ppb, high)
    }
}
