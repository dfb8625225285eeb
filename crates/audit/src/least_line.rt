//! The line of the least bound that a certificate carries.

ghost use Rattle.std.specs.Prelude.{◌≡◌, ◌≤◌, Some, IfOk, IfSome, is_some};
ghost use Rattle.audit.specs.Common.{max_pieces, data_of, count_of};
ghost use Rattle.audit.specs.Evidence.{IsLawfulEvidence, evidence_data};
ghost use Rattle.audit.specs.Least.{IsLeastBoundOf, least_line_of};

use crate::evidence::Evidence;
use crate::sample_list::samples_of;
use envelope_text::{LeastLine, Step};
use feasibility::conflicts_of;
use finder::laws::{courses_leave_no_hull_empty, pieces_hold_their_ticks};
use finder::{LeastCarried, least_bound, piece_holding};
use std::alloc::{AllocError, Global};

/// The least bound that a certificate carries, if it is asked for: only then is it looked for, and
/// first where the exchanges' conflicts leave the tick that needs most.
pub(crate) fn least_if(
    alloc: Global,
    asked: bool,
    evidence: &Evidence,
) -> Result<Option<Option<LeastCarried>>, AllocError>
    requires { IsLawfulEvidence evidence.now }
    ensures least { IfOk result (λ least.
        IfSome least (IsLeastBoundOf (evidence_data evidence.now))) }
    ensures asked { IfOk result (λ least. is_some least ≡ asked) }
{
    if !asked {
        return Ok(None);
    }
    courses_leave_no_hull_empty();
    let claim = &evidence.claim;
    let conflicts = conflicts_of(alloc, evidence.held.exchanges.as_slice(), claim)?;
    let covers = conflicts.covers(claim.false_max);
    let found = least_bound(alloc, samples_of(evidence), claim, covers.as_slice())?;
    Ok(Some(found))
}

/// The line, if a bound was looked for, with the number of the piece that holds its tick. There are
/// at most 100,000 pieces of this length.
pub(crate) fn line_on(
    step: Step,
    evidence: &Evidence,
    least: Option<Option<LeastCarried>>,
) -> LeastLine
    requires evidence { IsLawfulEvidence evidence.now }
    requires few { count_of (data_of evidence.now.claim) step.seconds ≤ max_pieces }
    requires least { IfSome least (IsLeastBoundOf (evidence_data evidence.now)) }
    ensures { least_line_of (data_of evidence.now.claim) step.seconds (is_some least) least
        ≡ Some result }
{
    pieces_hold_their_ticks();
    match least {
        Some(Some(least)) => LeastLine::Holds {
            bound_ns: least.bound_ns,
            piece: piece_holding(&evidence.claim, step.seconds, least.tick) as u32,
        },
        Some(None) => LeastLine::NoneHolds,
        None => LeastLine::NotAsked,
    }
}
