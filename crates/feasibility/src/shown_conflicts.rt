//! All conflicts, each with what shows it.

ghost use Rattle.std.specs.Prelude.{◌≡◌, ◌<◌, ◌+◌, IfOk, length, map, List, All};
ghost use Rattle.feasibility.specs.Common.{data_of as claim_data, IsLawful as IsLawfulExchange, Exchange};
ghost use Rattle.feasibility.specs.ConflictTable.{IsConflictTable};
ghost use Rattle.feasibility.specs.ConflictsView.{data_of};
ghost use Rattle.feasibility.specs.Contradiction.{AreAllConflicts};
ghost use Rattle.feasibility.specs.NumberedMarks.{IsNumbered, AreGrounds};
ghost use Rattle.feasibility.specs.PairMarks.{conflict_data};
ghost use Rattle.feasibility.specs.ShownConflicts as spec;
ghost use Rattle.feasibility.specs.ShownConflicts.{AreListedUpto};

use crate::conflicts::Conflicts;
use crate::contradiction::Contradiction;
use crate::numbered_marks::{NumberedMarks, first_of_groups, numbered_by_group};
use claim_file::Claim;
use pairing::ToExchange;
use std::alloc::{AllocError, Global};

/// Two groups that conflict, or one that is broken, and what shows it.
#[derive(Clone, Copy)]
pub struct Conflict {
    /// The number of the broken group, or the lesser number of two.
    pub a: u8,
    /// The other group's number, or the broken group's once more.
    pub b: u8,
    /// The first two exchanges that show it.
    pub pair: Contradiction,
}

/// Whether two numbers are those of a broken group, or of two others that conflict, the lesser
/// number first.
fn is_listed(conflicts: &Conflicts, a: u8, b: u8) -> bool
    requires one { a < (data_of conflicts.now).groups }
    requires other { b < (data_of conflicts.now).groups }
    ensures { result ≡ spec.is_listed (data_of conflicts.now) a b }
{
    if a == b {
        conflicts.is_broken(a)
    } else {
        a < b && !conflicts.is_broken(a) && !conflicts.is_broken(b) && conflicts.is_edge(a, b)
    }
}

/// Adds the conflicts of which a group has the lesser number, or is broken.
fn add_conflicts(
    alloc: Global,
    claim: &Claim,
    conflicts: &Conflicts,
    marks: &[NumberedMarks],
    a: u8,
    listed: &mut Vec<Conflict>,
) -> Result<(), AllocError>
    requires groups { (data_of conflicts.now).groups ≡ length claim.now.groups.items }
    requires numbered { All IsNumbered marks.now }
    requires count { length marks.now ≡ length claim.now.groups.items }
    requires within { a < (data_of conflicts.now).groups }
    ensures { IfOk result (λ _. (xs : List Exchange) →
        AreGrounds (claim_data claim.now) xs (data_of conflicts.now) marks.now →
        AreListedUpto (claim_data claim.now) xs a 0 (map conflict_data listed.old.items) →
        AreListedUpto (claim_data claim.now) xs (a + 1) 0 (map conflict_data listed.new.items)) }
{
    for b in 0..conflicts.groups() {
        if is_listed(conflicts, a, b) {
            // Each conflict has one.
            let found = first_of_groups(alloc, claim.drift_ppb, marks, a, b)?;
            if let Some(pair) = found {
                listed.push(Conflict { a, b, pair })?;
            }
        }
    }
    Ok(())
}

/// All conflicts, each with the first two exchanges that show it, in the order of the groups'
/// numbers: those that are broken, and each two of the others that conflict.
///
/// `conflicts` is what [`conflicts_of`](crate::conflicts_of) makes of the same exchanges. The marks
/// of each group are gathered once, and searched for each conflict that the group is in. Memory is
/// taken for at most four marks of each exchange, of 32 bytes each.
pub fn first_contradictions<X: ToExchange>(
    alloc: Global,
    exchanges: &[X],
    claim: &Claim,
    conflicts: &Conflicts,
) -> Result<Vec<Conflict>, AllocError>
    requires exchanges { All (IsLawfulExchange (length claim.now.servers.items))
        (map X.shown exchanges.now) }
    requires groups { (data_of conflicts.now).groups ≡ length claim.now.groups.items }
    requires table { IsConflictTable (claim_data claim.now) (map X.shown exchanges.now)
        (data_of conflicts.now).is_broken (data_of conflicts.now).is_edge }
    ensures { IfOk result (λ listed. AreAllConflicts (claim_data claim.now)
        (map X.shown exchanges.now) (map conflict_data listed.items)) }
{
    let marks = numbered_by_group(alloc, exchanges, claim)?;
    let mut listed = Vec::new(alloc);
    for a in 0..conflicts.groups() {
        add_conflicts(alloc, claim, conflicts, &marks, a, &mut listed)?;
    }
    Ok(listed)
}
