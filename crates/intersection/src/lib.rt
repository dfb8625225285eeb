//! What a list of closed intervals has in common when a few of them may be wrong.
//!
//! Servers answer with correctness intervals, and up to `f` of the servers may be false tickers
//! (RFC 5905, section 11.2.1). A point is admissible if at most `f` intervals leave it out, and
//! [`hull`] is the least range that holds every admissible point. [`hull_walk`] also says how many
//! ends of intervals were looked at, and [`meet`] narrows two intervals to one. Nothing here
//! allocates.
//!
//! What three sources agree on if one of them may be wrong, as `agreed_by_two` of
//! `worked_examples/src/uses.rt` has it, with its proof:
//!
//! ```text
//! let mut intervals = ArrayVec::new();
//! intervals.push(a);
//! intervals.push(b);
//! intervals.push(c);
//! hull(&intervals, 1)
//! ```

#![tactic(auto)]

mod ends;
mod interval;
pub mod kinds;
pub mod laws;
mod marzullo;

pub use ends::Side;
pub use interval::meet;
pub use marzullo::{hull, hull_walk};
