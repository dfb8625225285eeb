//! Which way the error changes between two marks.

ghost use Rattle.std.specs.Prelude.{◌↔◌, IsTrue};
ghost use Rattle.sample_interval.specs.Widening.{IsRate};
ghost use Rattle.error_marks.specs.Direction.{IsBelow};
ghost use Rattle.error_marks.specs.Range.{IsWithinRange};

use crate::line::{falling_line, rising_line};
use crate::mark::Mark;

/// Which way the error changes between two marks.
#[derive(Clone, Copy)]
pub enum Direction {
    /// From a low mark down to a high mark behind it.
    Falling,
    /// From a high mark up to a low mark behind it.
    Rising,
}

impl Direction {
    /// Whether the line from the first mark onwards lies no further than that of the second.
    pub fn is_below(self, drift_ppb: u32, a: Mark, b: Mark) -> bool
        requires rate { IsRate drift_ppb }
        requires a { IsWithinRange a }
        requires b { IsWithinRange b }
        ensures { IsTrue result ↔ IsBelow self drift_ppb a b }
    {
        match self {
            Direction::Falling => falling_line(drift_ppb, a) <= falling_line(drift_ppb, b),
            Direction::Rising => rising_line(drift_ppb, b) <= rising_line(drift_ppb, a),
        }
    }
}
