//! What courses of events can do, exactly: which marks one course can keep, which errors it can
//! have, and whether any course fits a capture at all.
//!
//! Each exchange leaves two marks (`error_marks`): what the error can't lie below at one reading of
//! the clock, and what it can't lie above at another. A course of events keeps the marks of every
//! exchange with a server that isn't false (specs/Keeping), and pairs of marks settle whether there
//! is one (specs/TrueMarks): wherever each low mark is compatible with each high mark, the lowest
//! course keeps them all (specs/LowestCourse).
//!
//! Two things rest on this: refutations whose error may drift (specs/DriftRefutation), which
//! [`check_refutation_with_drift`] settles; and covers, which settle whether any course fits
//! (specs/Cover). [`laws`] has the theorems and their steps.
//!
//! Which groups can't all be right is a graph, [`Conflicts`], which finds groups that account for
//! it if they are false (specs/Conflicts). [`conflicts_of`] makes it of the exchanges, and by it
//! [`course_fits`] settles whether any course fits, and [`check_refutation_by_conflicts`], in one
//! pass, whether a refutation stands that takes whole groups for false.
//!
//! Where no more groups have an exchange than may be false, exchanges are no evidence: every error
//! is possible (specs/ServedGroups). [`groups_with_exchanges`] tells which have one.
//!
//! Whether any course fits, as [`course_fits`] of `feasibility/src/fits.rt` asks it, with its
//! proof:
//!
//! ```text
//! let found = conflicts_of(alloc, exchanges, claim)?;
//! Ok(found.has_cover(claim.false_max))
//! ```

#![tactic(auto)]

mod conflict_laws;
mod conflicts;
mod contradiction;
pub mod cover_laws;
mod cover_search;
mod fits;
mod group_refutation;
mod groups;
mod kept_marks;
pub mod laws;
mod members;
mod numbered_marks;
mod refutation;
mod refutation_laws;
mod served_groups;
mod served_laws;
mod shown_conflicts;
mod sorted_marks;
mod table;

pub use conflicts::Conflicts;
pub use contradiction::Contradiction;
pub use fits::course_fits;
pub use group_refutation::check_refutation_by_conflicts;
pub use groups::Groups;
pub use refutation::check_refutation_with_drift;
pub use served_groups::groups_with_exchanges;
pub use shown_conflicts::{Conflict, first_contradictions};
pub use table::conflicts_of;
