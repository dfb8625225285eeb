//! Finds certificates by covers, and the refutations of what they don't carry.
//!
//! [`find_by_covers`] names each conflict, takes each minimal cover for a case, and makes the
//! pieces of each case as long as the bound allows, from left to right (reach.rt). If the checker
//! accepts what it makes, that is the answer. Where the pieces of a case stop, some course is
//! beyond the bound, but for rounding: there it looks for a refutation, with the cover's groups
//! false (refuted.rt). [`settle`] asks for it where a claim stays open without covers.
//! [`HullFinder`] finds hulls, of which [`laws`] say what they hold and how near their ends are.
//!
//! The marks of each server are laid out in a table once (table.rt), which says by a few searches
//! what the server says over any piece. A low mark's moved end is the lesser of what it has fallen
//! to by the piece's end and of what it was risen to from its begin. Up to a place that the two
//! rates give the first is the lesser, beyond it the second. So one number of a mark and one of the
//! piece decide, and of the marks up to a place the highest is known beforehand (ridge.rt). High
//! marks go by the same, upside down (side.rt).
//!
//! How a moved end is found, from `highest` of `cover_finder/src/side.rt`, with its proof:
//!
//! ```text
//! let middle = middle_of(self.early.rate, self.late.rate, stretch);
//! let early = self.early.highest(middle, stretch.end);
//! ```

#![tactic(auto)]

mod answer;
mod hull;
pub mod laws;
mod peak;
mod reach;
mod refuted;
mod ridge;
mod search;
mod side;
mod table;

pub use answer::{Answer, settle};
pub use hull::HullFinder;
pub use search::{Found, find_by_covers};
