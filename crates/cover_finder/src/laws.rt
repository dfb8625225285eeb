//! What hulls by covers say, and how near. A law is a function that does nothing: its contract is
//! the law, for every number.

ghost use Rattle.std.specs.Prelude.{◌≡◌, ℕ, ◌<◌, ℤ, pos, ◌+ℤ◌, ◌≤ℤ◌, false, Some, List, length, slice_get, All};
ghost use Rattle.claim_file.specs.Claim.{IsLawful};
ghost use Rattle.cover_finder.specs.Common.{AreLeastCovers, ClaimData, Exchange, Groups, Hull, IsLawful as IsLawfulExchange, IsPiece, Stretch, holds};
ghost use Rattle.cover_finder.specs.Hull.{HoldsError, IsHullByCovers, IsNearlyAttained};
ghost use Rattle.cover_finder.specs.Open.{IsNearlyOff, LiesInside};

use cover_checker::laws::hulls_hold_the_error;

/// A hull by covers holds the error at every moment whose reading lies in the stretch, in every
/// course that fits: also if there are 64 minimal covers or more, and it is one by marks alone.
pub fn hulls_by_covers_hold_the_error()
    ensures { (claim : ClaimData) (xs : List Exchange) (stretch : Stretch) (hull : Hull) →
        IsLawful claim → All (IsLawfulExchange (length claim.servers)) xs →
        IsHullByCovers claim xs stretch hull → HoldsError claim xs stretch hull }
{
    hulls_hold_the_error();
}

/// The ends of a hull by covers are attained, if there are fewer than 64 minimal covers: in some
/// course that fits the error comes within a tick of each, but for what it may change over the
/// stretch.
///
/// With the groups false that are left out, and those whose intervals leave the end out, few
/// enough are false, and the marks of all other exchanges leave room for such a course: the lowest.
pub fn ends_are_nearly_attained()
    ensures { (claim : ClaimData) (xs : List Exchange) (stretch : Stretch) (hull : Hull) →
        IsLawful claim → All (IsLawfulExchange (length claim.servers)) xs →
        IsPiece stretch.begin stretch.end → (by : IsHullByCovers claim xs stretch hull) →
        length by.of.covers < 64 → IsNearlyAttained claim xs stretch hull }
{}

/// Where the hull of a case, whose groups are a minimal cover, isn't inside the bound over a tick
/// of the span or less, some course that fits is nearly off.
///
/// The hull isn't empty, since a course fits with the servers of these groups false. Where it is
/// unbounded, the error may be anything; else one of its ends lies beyond the bound. That end is
/// nearly attained, and over a tick the error changes by a tick at most.
pub fn what_a_case_leaves_unshown_is_nearly_off()
    ensures { (claim : ClaimData) (xs : List Exchange) (covers : List Groups) (k : ℕ) (out : Groups)
        (begin end : ℤ) → IsLawful claim → All (IsLawfulExchange (length claim.servers)) xs →
        AreLeastCovers claim xs covers → slice_get covers k ≡ Some out → claim.first ≤ℤ begin →
        begin ≤ℤ end → end ≤ℤ claim.last → end ≤ℤ (begin +ℤ pos 1) →
        LiesInside claim xs (holds out) begin end false → IsNearlyOff claim xs }
{
    hulls_hold_the_error();
}
