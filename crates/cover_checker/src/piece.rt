//! The pieces of a case.

ghost use Rattle.std.specs.Prelude.{◌≡◌, ◌^◌, ◌<◌, ◌≤◌, ◌-◌, pos, ◌≤ℤ◌, ◌<ℤ◌, length, map, All, Some};
ghost use Rattle.std.specs.Option.{option_map};
ghost use Rattle.cover_checker.specs.Common.{IsLawful, case_data, claim_data, has, hull_fault, max_cases, max_pieces, piece_data, size_of};
ghost use Rattle.cover_checker.specs.Verdict.{case_fault, case_faults, piece_why, pieces_why};
ghost use Rattle.cover_checker.specs.declared.verdict.PieceWhy.TheVariants.{Of};

use crate::case::set_of;
use crate::entry::add_parts;
use crate::members::count;
use crate::verdict::PieceWhy;
use arrayvec::ArrayVec;
use certificate::Piece;
use checker::Why;
use claim_file::Claim;
use cover_certificate::Case;
use intersection::kinds::Hull;
use pairing::ToExchange;
use span_cover::{Stretch, is_inside, piece_hull};

/// The first test that fails in a piece that begins at `begin`, in a case that leaves these groups
/// out.
fn piece_why<X: ToExchange>(
    exchanges: &[X],
    claim: &Claim,
    out: u32,
    begin: i128,
    piece: &Piece,
) -> Option<PieceWhy>
    requires exchanges { All (IsLawful (length claim.now.servers.items))
        (map X.shown exchanges.now) }
    requires from_1970 { pos 0 ≤ℤ begin }
    requires in_range { begin <ℤ pos (2 ^ 64) }
    ensures { result ≡ piece_why (claim_data claim.now) (map X.shown exchanges.now) (has out)
        begin (piece_data piece.now) }
{
    let stretch = Stretch {
        begin,
        end: i128::from(piece.upto),
    };
    if stretch.end < begin || claim.last < stretch.end {
        return Some(PieceWhy::Of(Why::Cut));
    }
    let few = false_besides(claim, out);
    let mut parts = ArrayVec::new();
    match add_parts(&mut parts, exchanges, claim, out, stretch, &piece.entries) {
        Ok(()) => hull_why(
            piece_hull(parts.as_slice(), claim.groups.as_slice(), few),
            claim.bound,
        ),
        Err(why) => Some(why),
    }
}

/// How many groups may be false besides these.
fn false_besides(claim: &Claim, out: u32) -> u8
    ensures { result ≡ claim.now.false_max - size_of (claim_data claim.now) (has out) }
{
    let named = count(out, claim.groups.len() as u8);
    claim.false_max.saturating_sub(named)
}

/// Why a hull doesn't show that the error is within a bound.
fn hull_why(hull: Hull, bound: i128) -> Option<PieceWhy>
    requires { pos 0 ≤ℤ bound }
    ensures { result ≡ option_map Of (hull_fault bound hull) }
{
    match hull {
        Hull::Unbounded => Some(PieceWhy::Of(Why::Unbounded)),
        Hull::Empty => Some(PieceWhy::Of(Why::Contradiction)),
        Hull::Bounded { .. } if is_inside(bound, hull) => None,
        Hull::Bounded { .. } => Some(PieceWhy::Of(Why::Exceeds)),
    }
}

/// The first piece of a case that fails, by its number; after the last comes whether they are the
/// span.
fn case_fault<X: ToExchange>(exchanges: &[X], claim: &Claim, case: &Case) -> Option<(u32, PieceWhy)>
    requires exchanges { All (IsLawful (length claim.now.servers.items))
        (map X.shown exchanges.now) }
    requires pieces { length case.now.pieces.items ≤ max_pieces }
    requires listed { All (λ group. group < 32) case.now.groups.items }
    ensures { result ≡
        case_fault (claim_data claim.now) (map X.shown exchanges.now) (case_data case.now) }
{
    let out = set_of(case);
    let mut begin = claim.first;
    for (number, piece) in case.pieces.iter().enumerate() {
        if let Some(why) = piece_why(exchanges, claim, out, begin, piece) {
            return Some((number as u32, why));
        }
        begin = i128::from(piece.upto);
    }
    let count = case.pieces.len();
    if count > 0 && begin == claim.last {
        return None;
    }
    Some((count as u32, PieceWhy::Of(Why::Uncovered)))
}

/// The first case with a piece that fails, and that piece, by their numbers.
pub(crate) fn first_bad_piece<X: ToExchange>(
    exchanges: &[X],
    claim: &Claim,
    cases: &[Case],
) -> Option<(u32, (u32, PieceWhy))>
    requires exchanges { All (IsLawful (length claim.now.servers.items))
        (map X.shown exchanges.now) }
    requires cases { length cases.now ≤ max_cases }
    requires pieces { All (λ case. length case.pieces.items ≤ max_pieces) cases.now }
    requires listed { All (λ case. All (λ group. group < 32) case.groups.items) cases.now }
    ensures { result ≡ case_faults (claim_data claim.now) (map X.shown exchanges.now) 0
        (map case_data cases.now) }
{
    for (number, case) in cases.iter().enumerate() {
        if let Some(fault) = case_fault(exchanges, claim, case) {
            return Some((number as u32, fault));
        }
    }
    None
}
