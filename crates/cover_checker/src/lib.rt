//! Whether a certificate by covers shows a claim.
//!
//! Such a certificate names conflicts, pairs of exchanges of which one has a false server, and
//! cases: groups that hold a false server, with pieces of the span that go by the others
//! (specs/Acceptance). [`CoverVerdict`] says whether it is accepted, and if it isn't, which test is
//! the first that fails (specs/Verdict). [`check_covers`] gives it.
//!
//! An accepted certificate shows the claim in every course of events that fits the exchanges that
//! it names: the false groups have an end of each conflict, so they hold all groups of some case,
//! and as many fewer of the others are false. [`laws`] has that, and why.
//!
//! How one law stands on others, from `verdicts_are_exact` of `cover_checker/src/laws.rt`:
//!
//! ```text
//! covers_are_traceable();
//! every_list_has_a_hull();
//! hull_is_one_answer();
//! ```

#![tactic(auto)]

mod case;
mod conflict;
mod cover_search;
mod entry;
mod exchange;
mod interval;
pub mod laws;
mod members;
mod piece;
mod table;
mod verdict;

pub use exchange::exchange_named;
pub use interval::{high_over, low_over, missed_by, part_of};
pub use verdict::{CaseWhy, CoverVerdict, PieceWhy, check_covers};
