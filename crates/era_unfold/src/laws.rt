//! What holds of the definitions that the contracts cite. A law is a function that does nothing:
//! its contract is the law, for every number.

ghost use Rattle.std.specs.Prelude.{◌≡◌, ℕ, ◌+◌, ◌-◌, ◌*◌, ◌<◌, ◌≤◌, ℤ, pos, ◌-ℤ◌, unsigned_abs};
ghost use Rattle.era_unfold.specs.declared.unit.Unit.{Unit as SubsecondUnit};
ghost use Rattle.era_unfold.specs.Ratio.{IsFloor, IsCeiling, IsSignedFloor, IsSignedCeiling, floor_of, ceiling_of};
ghost use Rattle.era_unfold.specs.Window.{per_second, ticks_per_second, window_low, window_high};
ghost use Rattle.era_unfold.specs.Nanoseconds.{ticks_down, ticks_up, nanoseconds_per_second};
ghost use Rattle.era_unfold.specs.Stamp.{StandsFor, IsUnfolded, unfolded, era};

use crate::nanoseconds::TICKS_PER_SECOND;
use crate::stamp::ERA;
use crate::unit::NANOSECONDS_PER_SECOND;

/// The program's ticks and nanoseconds to the second, and its ticks to the era, are those of the
/// definitions.
pub fn constants_are_those_of_the_definitions()
    ensures ticks { TICKS_PER_SECOND ≡ ticks_per_second }
    ensures nanoseconds { NANOSECONDS_PER_SECOND ≡ nanoseconds_per_second }
    ensures era { ERA ≡ pos era }
{}

/// `floor_of` gives the greatest whole number that is not above a ratio, and `ceiling_of` the least
/// that is not below, also among numbers below zero.
#[tactic(auto, using(crate::proofs::Rounding::signed_rounding))]
pub fn ratios_are_rounded_as_little_as_can_be()
    ensures down { (n d : ℕ) → 0 < d → IsFloor n d (floor_of n d) }
    ensures up { (n d : ℕ) → 0 < d → IsCeiling n d (ceiling_of n d) }
    ensures signed_down { (n d q : ℕ) → IsFloor n d q → IsSignedFloor (pos q) (pos n) d }
    ensures signed_up { (n d q : ℕ) → 0 < d → IsCeiling n d q → IsSignedCeiling (pos q) (pos n) d }
{}

/// A record's window begins at or before the moment that its time says, and ends at or after the
/// next unit's.
pub fn window_holds_the_moment()
    ensures begins_before { (unit : SubsecondUnit) (sec sub : ℕ) →
        window_low unit sec sub * per_second
        unit ≤ (sec * per_second unit + sub) * ticks_per_second }
    ensures ends_after { (unit : SubsecondUnit) (sec sub : ℕ) →
        (sec * per_second unit + sub + 1) * ticks_per_second ≤ window_high unit sec
        sub * per_second unit }
{}

/// No lesser range of whole ticks than the window holds both moments.
pub fn window_is_as_near_as_whole_ticks_can_be()
    ensures begin { (unit : SubsecondUnit) (sec sub tick : ℕ) →
        tick * per_second unit ≤ (sec * per_second unit + sub) * ticks_per_second →
        tick ≤ window_low unit sec sub }
    ensures end { (unit : SubsecondUnit) (sec sub tick : ℕ) →
        (sec * per_second unit + sub + 1) * ticks_per_second ≤ tick * per_second unit →
        window_high unit sec sub ≤ tick }
{}

/// A window lies inside its record's second, and is more than one tick.
#[tactic(auto, using(crate::proofs::RecordWindow::within_second))]
pub fn window_lies_in_its_second()
    ensures begin { (unit : SubsecondUnit) (sec sub : ℕ) →
        sec * ticks_per_second ≤ window_low unit sec sub }
    ensures forward { (unit : SubsecondUnit) (sec sub : ℕ) →
        window_low unit sec sub < window_high unit sec sub }
    ensures end { (unit : SubsecondUnit) (sec sub : ℕ) → sub < per_second unit →
        window_high unit sec sub ≤ (sec + 1) * ticks_per_second }
{}

/// There is no gap between the windows of one unit and the next, and the last window of a second
/// ends exactly where the first of the next second begins.
#[tactic(auto, using(crate::proofs::RecordWindow::no_gap))]
pub fn windows_leave_no_gap()
    ensures next_unit { (unit : SubsecondUnit) (sec sub : ℕ) →
        window_low unit sec (sub + 1) ≤ window_high unit sec sub }
    ensures next_second { (unit : SubsecondUnit) (sec : ℕ) →
        window_high unit sec (per_second unit - 1) ≡ window_low unit (sec + 1) 0 }
{}

/// A number of nanoseconds lies between its ticks rounded down and its ticks rounded up, and no
/// whole ticks are nearer.
pub fn nanoseconds_lie_between_their_ticks()
    ensures down { (n : ℕ) → ticks_down n * nanoseconds_per_second ≤ n * ticks_per_second }
    ensures up { (n : ℕ) → n * ticks_per_second ≤ ticks_up n * nanoseconds_per_second }
    ensures greatest { (n tick : ℕ) →
        tick * nanoseconds_per_second ≤ n * ticks_per_second → tick ≤ ticks_down n }
    ensures least { (n tick : ℕ) →
        n * ticks_per_second ≤ tick * nanoseconds_per_second → ticks_up n ≤ tick }
{}

/// More nanoseconds have no fewer ticks.
#[tactic(auto, using(crate::proofs::NanosecondTicks::no_fewer_ticks))]
pub fn more_nanoseconds_have_no_fewer_ticks()
    ensures down { (m n : ℕ) → m ≤ n → ticks_down m ≤ ticks_down n }
    ensures up { (m n : ℕ) → m ≤ n → ticks_up m ≤ ticks_up n }
{}

/// Every timestamp stands for a tick near every moment, which `unfolded` gives.
pub fn every_stamp_is_unfolded()
    ensures { (stamp : ℕ) (near : ℤ) → IsUnfolded stamp near (unfolded stamp near) }
{}

/// No timestamp stands for two ticks near one moment.
pub fn unfolded_is_one_number()
    ensures { (stamp : ℕ) (near s t : ℤ) → IsUnfolded stamp near s → IsUnfolded stamp near t
        → s ≡ t }
{}

/// Of all ticks that a timestamp stands for, in any era, none is nearer.
#[tactic(auto, using(crate::proofs::StampTick::unfolded_nearest))]
pub fn unfolded_is_nearest()
    ensures { (stamp : ℕ) (near other : ℤ) → StandsFor stamp other →
        unsigned_abs (unfolded stamp near -ℤ near) ≤ unsigned_abs (other -ℤ near) }
{}
