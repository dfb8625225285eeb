//! Settles whether a certificate shows that a clock stayed within a bound of UTC.
//!
//! [`check`] tests a certificate piece by piece, and its yes is a theorem: in every course of
//! events that fits the exchanges and what the claim grants, the error of the client's clock is
//! within the bound over the whole span. What a course is and when it fits stands in specs/Course.
//! [`check_exchanges`] is the same of exchanges, without a list of their samples. Nothing here
//! allocates. [`laws`] has the theorem, its steps, and how verdicts compare.
//!
//! [`check_refutation`] settles whether there is evidence against the claim: an error beyond the
//! bound for which such a course fits. No claim gets both a yes and a refutation from one list of
//! exchanges.
//!
//! Whether a certificate shows its claim, as `is_shown` of `worked_examples/src/uses.rt` asks, with
//! its proof:
//!
//! ```text
//! match check(samples, claim, certificate) {
//!     Verdict::Yes => true,
//!     Verdict::No { .. } => false,
//! }
//! ```

#![tactic(auto)]

mod entry;
pub mod laws;
mod piece;
mod refutation;
mod refutation_laws;
mod verdict;

pub use refutation::{check_refutation, false_group_count, is_against};
pub use verdict::{Verdict, Why, check, check_exchanges};
