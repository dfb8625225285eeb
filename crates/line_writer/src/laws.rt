//! What holds of the definitions that the contracts cite. A law is a function that does nothing:
//! its contract is the law.

ghost use Rattle.std.specs.Prelude.{◌≡◌, ℕ, ◌+◌, ◌-◌, ◌*◌, ◌<◌, ◌≤◌, ◌^◌, ℤ, pos, ◌*ℤ◌, unsigned_abs, Some, true, List, [], ◌∷◌, ◌++◌, codes, length, replicate};
ghost use Rattle.std.specs.List.{list_all};
ghost use Rattle.std.specs.Net.Grammar.{IsDotted};
ghost use Rattle.era_unfold.specs.Ratio.{IsCeiling, IsFloor, IsSignedCeiling, IsSignedFloor};
ghost use Rattle.era_unfold.specs.Window.{per_second, window_low};
ghost use Rattle.era_unfold.specs.declared.unit.Unit.{Unit as SubsecondUnit};
ghost use Rattle.line_writer.specs.Field.{Address, Billionths, High, Low, Nanoseconds, Number, Reference, Second, TimeAbove, TimeBelow, human_text};
ghost use Rattle.line_writer.specs.Millisecond.{longer, nanosecond_above, nanosecond_below, shorter};
ghost use Rattle.line_writer.specs.Moment.{part_of, second_of};
ghost use Rattle.line_writer.specs.Reading.{SaysIn, SaysMoment, read_signed, read_whole};
ghost use Rattle.line_writer.specs.Text.{is_printable};

/// A range that is shown holds the range in ticks, and as little more as can be: its low end is the
/// greatest number of whole nanoseconds that isn't above the low end in ticks, and its high end the
/// least that isn't below the high one.
pub fn shown_ranges_hold_the_range()
    ensures low { (tick : ℤ) →
        IsSignedFloor (nanosecond_below tick) (tick *ℤ pos 1000000000) (2 ^ 32) }
    ensures high { (tick : ℤ) →
        IsSignedCeiling (nanosecond_above tick) (tick *ℤ pos 1000000000) (2 ^ 32) }
{}

/// The first tick of the window of a capture's record, rounded up to a whole nanosecond, is the
/// record's time, exactly.
#[tactic(auto, using(crate::proofs::Moments::record_time))]
pub fn first_ticks_of_windows_give_the_record_time()
    ensures { (unit : SubsecondUnit) (sec sub : ℕ) →
        longer (window_low unit sec sub) * per_second unit
        ≡ (sec * per_second unit + sub) * 1000000000 }
{}

/// What is shown of a number reads back as the number: its sign, its digits and its point stand
/// where a reader looks for them who knows nothing of the writer.
pub fn shown_numbers_read_back()
    ensures whole { (n : ℕ) → n < 2 ^ 128 → read_whole (human_text (Number n)) ≡ Some n }
    ensures length { (n : ℕ) → n < 2 ^ 128 →
        SaysIn (codes " ms") 6 (human_text (Nanoseconds n)) n }
    ensures share { (n : ℕ) → n < 2 ^ 128 →
        SaysIn (codes " ppm") 3 (human_text (Billionths n)) n }
    ensures low { (tick : ℤ) → unsigned_abs tick < 2 ^ 128 →
        read_signed 6 (human_text (Low tick)) ≡ Some (nanosecond_below tick) }
    ensures high { (tick : ℤ) → unsigned_abs tick < 2 ^ 128 →
        read_signed 6 (human_text (High tick)) ≡ Some (nanosecond_above tick) }
{}

/// What is shown of a time reads back as it: a date of the calendar and a time of that day, whose
/// second is the second. Of a tick from 1970 on it is that of the greatest number of whole
/// nanoseconds that isn't above the tick, or of the least that isn't below it.
pub fn shown_times_read_back()
    ensures second { (second : ℕ) → second < 2 ^ 32 →
        SaysMoment (human_text (Second second)) second 0 }
    ensures below { (tick : ℕ) → second_of (shorter tick) < 2 ^ 32 →
        SaysMoment (human_text (TimeBelow (pos tick)))
        (second_of (shorter tick)) (part_of (shorter tick))
        × IsFloor (tick * 1000000000) (2 ^ 32) (shorter tick) }
    ensures above { (tick : ℕ) → second_of (longer tick) < 2 ^ 32 →
        SaysMoment (human_text (TimeAbove (pos tick)))
        (second_of (longer tick)) (part_of (longer tick))
        × IsCeiling (tick * 1000000000) (2 ^ 32) (longer tick) }
{}

/// What is shown of an address reads back as it. A reference identifier that is a name of one to
/// four printable characters, filled up with zero bytes, is shown by this name.
pub fn shown_bytes_read_back()
    ensures address { (a b c d : ℕ) → a < 256 → b < 256 → c < 256 → d < 256 →
        IsDotted (human_text (Address (a ∷ b ∷ c ∷ d ∷ []))) (a ∷ b ∷ c ∷ d ∷ []) }
    ensures name { (name : List ℕ) → 1 ≤ length name → length name ≤ 4 →
        list_all is_printable name ≡ true →
        human_text (Reference (name ++ replicate (4 - length name) 0)) ≡ name }
{}
