//! What holds of the definitions.

ghost use Rattle.std.specs.Prelude.{◌≡◌, ℕ, ◌+◌, ◌*◌, ◌<◌, List, Some};
ghost use Rattle.era_unfold.specs.Ratio.{IsFloor, IsCeiling};
ghost use Rattle.era_unfold.specs.Window.{ticks_per_second};
ghost use Rattle.reading_time.specs.Reading.{begin_of, end_of, number_of, parts_of};

/// The ticks of a reading are rounded outwards, as little as can be: its first moment isn't before
/// the one, and the moment at which its last digit changes isn't after the other.
pub fn ticks_hold_the_reading()
    ensures begin { (second : ℕ) (digits : List ℕ) → IsFloor
        ((second * parts_of digits + number_of digits) * ticks_per_second)
        (parts_of digits) (begin_of second digits) }
    ensures end { (second : ℕ) (digits : List ℕ) → IsCeiling
        ((second * parts_of digits + number_of digits + 1) * ticks_per_second)
        (parts_of digits) (end_of second digits) }
{}
