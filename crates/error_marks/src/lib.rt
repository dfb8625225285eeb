//! Marks: what an exchange leaves for the clock's error, at one reading of the clock each.
//!
//! - [`low_mark`] and [`high_mark`] give what the error can't lie below and above, if the server
//!   isn't false, and [`is_possible`] whether the exchange can have happened at all.
//! - [`are_compatible`] says whether some course of the error keeps a low mark and a high mark,
//!   with the claim's rate of drift, and [`all_compatible`] whether each low mark of a list is
//!   compatible with each high mark of another, by one sort and two sweeps.
//! - [`first_conflict`] names the first low mark and high mark that aren't.
//!
//! Each is exact by its contract, and only [`first_conflict`] takes memory. [`laws`] has what holds
//! of the definitions.
//!
//! The marks of an exchange that can have happened, as `add` of `feasibility/src/kept_marks.rt`
//! keeps them, with its proof:
//!
//! ```text
//! if !is_possible(exchange, claim.reading) {
//!     return Ok(false);
//! }
//! self.lows.push(low_mark(exchange, claim.reading))?;
//! self.highs.push(high_mark(exchange, claim.reading))?;
//! Ok(true)
//! ```

#![tactic(auto)]

mod bounds;
mod compatible;
mod conflict;
mod direction;
pub mod laws;
mod line;
mod mark;
mod pair;
mod sweep;

pub use bounds::{high_mark, is_possible, low_mark};
pub use compatible::{all_compatible, all_compatible_in_order, sort_marks};
pub use conflict::{first_against, first_conflict};
pub use mark::Mark;
pub use pair::are_compatible;
