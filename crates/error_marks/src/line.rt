//! The lines through a mark along which the error changes as fast as it may.

ghost use Rattle.std.specs.Prelude.{◌≡◌, ◌^◌, ◌≤◌, unsigned_abs};
ghost use Rattle.sample_interval.specs.Widening.{IsRate};
ghost use Rattle.error_marks.specs.Line.{falling_line, rising_line};
ghost use Rattle.error_marks.specs.Range.{IsWithinRange};

use crate::mark::Mark;
use sample_interval::PARTS;

/// How high the line through the mark lies that falls as fast as the error may.
pub fn falling_line(drift_ppb: u32, mark: Mark) -> i128
    requires rate { IsRate drift_ppb }
    requires range { IsWithinRange mark }
    ensures exact { result ≡ falling_line drift_ppb mark }
    ensures range { unsigned_abs result ≤ 2 ^ 105 }
{
    let rate = i128::from(drift_ppb);
    (PARTS as i128 - rate) * mark.error + rate * mark.place
}

/// How high the line through the mark lies that rises as fast as the error may.
pub fn rising_line(drift_ppb: u32, mark: Mark) -> i128
    requires rate { IsRate drift_ppb }
    requires range { IsWithinRange mark }
    ensures exact { result ≡ rising_line drift_ppb mark }
    ensures range { unsigned_abs result ≤ 2 ^ 105 }
{
    let rate = i128::from(drift_ppb);
    (PARTS as i128 + rate) * mark.error - rate * mark.place
}
