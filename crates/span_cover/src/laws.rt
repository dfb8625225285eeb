//! What holds of the definitions. A law is a function that does nothing: its contract is the law,
//! for every number.

ghost use Rattle.std.specs.Prelude.{◌≡◌, List, Some, None, MatchOption, ℕ, ◌<◌, ◌≤◌, ℤ, pos, ◌-ℤ◌, ◌*ℤ◌, ◌≤ℤ◌, unsigned_abs};
ghost use Rattle.span_cover.specs.Common.{HoldsFraction, Sample, Moment, error_of, DriftsWithinByReading, IsInWindow, IsOffAtLeast, IsOffAtMost, billion, IsRate};
ghost use Rattle.span_cover.specs.Best.{IsFirstBest, IsBestLow, IsBestHigh, HasNoSample, best_of};
ghost use Rattle.span_cover.specs.Piece.{farthest, moved_low, moved_high, piece_interval_of};

use sample_interval::laws::{widening_grows, widening_is_one_number};

/// At a reading inside the piece, the client's error lies in the piece's interval, if its clock
/// drifts within the rate and the two samples bound the error at their own moments. It may have
/// read any time after the start of the low end's window, and any before the end of the high end's:
/// what it read beyond, the error is further inside, and it can't have changed by more since.
#[tactic(auto, using(crate::proofs::PieceDistance::error_in_interval))]
pub fn error_lies_in_the_interval_of_the_piece()
    ensures { (n ppb : ℕ) (low high : Sample) (p q : ℤ) (request reply observed : Moment) →
        IsRate ppb → low.low_from ≤ℤ low.low_to → high.high_from ≤ℤ high.high_to →
        IsInWindow n p q observed.reading → (low.low_from *ℤ pos n) ≤ℤ request.reading →
        IsOffAtLeast n low.low low.low_from request → DriftsWithinByReading ppb request observed →
        reply.reading ≤ℤ (high.high_to *ℤ pos n) →
        IsOffAtMost n high.high high.high_to reply → DriftsWithinByReading ppb reply observed →
        HoldsFraction (piece_interval_of low high p q ppb) (error_of observed) n }
{
    widening_is_one_number();
}

/// A piece inside another has a narrower interval from the same samples.
#[tactic(auto, using(crate::proofs::PieceDistance::narrower))]
pub fn piece_inside_another_is_narrower()
    ensures low { (ppb : ℕ) (sample : Sample) (p q inner outer : ℤ) →
        ppb < billion → sample.low_from ≤ℤ sample.low_to →
        p ≤ℤ inner → inner ≤ℤ outer → outer ≤ℤ q →
        moved_low sample p q ppb ≤ℤ moved_low sample inner outer ppb }
    ensures high { (ppb : ℕ) (sample : Sample) (p q inner outer : ℤ) →
        ppb < billion → sample.high_from ≤ℤ sample.high_to →
        p ≤ℤ inner → inner ≤ℤ outer → outer ≤ℤ q →
        moved_high sample inner outer ppb ≤ℤ moved_high sample p q ppb }
{
    widening_grows();
}

/// No other sample is the first of a server's samples that has the most merit.
pub fn best_is_one_sample()
    ensures { (merit : Sample → ℤ) (samples : List Sample) (server j k : ℕ) →
        IsFirstBest merit samples server j → IsFirstBest merit samples server k → j ≡ k }
{}

/// Whoever has the first of a server's samples with the greatest moved low, and the first with the
/// least moved high, has its best samples, however they were found.
pub fn first_best_of_both_ends_are_the_best()
    ensures some { (samples : List Sample) (server : ℕ) (p q : ℤ) (ppb low high : ℕ) →
        IsBestLow samples server p q ppb low → IsBestHigh samples server p q ppb high →
        best_of samples server p q ppb ≡ Some (low, high) }
    ensures none { (samples : List Sample) (server : ℕ) (p q : ℤ) (ppb : ℕ) →
        HasNoSample samples server → best_of samples server p q ppb ≡ None }
{}

/// And the other way round: what the definition gives are the best samples, and it gives none only
/// if the server has no sample.
#[tactic(auto, using(crate::proofs::BestSample::best_numbers))]
pub fn best_samples_are_the_first_best()
    ensures { (samples : List Sample) (server : ℕ) (p q : ℤ) (ppb : ℕ) →
        MatchOption (best_of samples server p q ppb) (HasNoSample samples server)
        (λ best. IsBestLow samples server p q ppb best.0
        × IsBestHigh samples server p q ppb best.1) }
{}

/// No reading of a piece is further from one of a window than the greatest distance.
#[tactic(auto, using(crate::proofs::PieceDistance::within_farthest))]
pub fn no_reading_is_farther()
    ensures { (from to p q moment reading : ℤ) → from ≤ℤ moment → moment ≤ℤ to → p ≤ℤ reading →
        reading ≤ℤ q → pos (unsigned_abs (reading -ℤ moment)) ≤ℤ farthest from to p q }
{}
