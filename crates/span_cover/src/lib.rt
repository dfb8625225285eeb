//! What samples say about the client's error over a piece of the span.
//!
//! - [`piece_interval`] gives the interval in which the error lies throughout a piece, from a
//!   sample for its low end and one for its high end.
//! - [`best`] gives the samples of a server that make this interval narrowest.
//! - [`BestSamples`] gives that interval of every server by one pass over samples, without a list.
//! - [`piece_end`] gives the ends of pieces of equal length.
//! - [`part_of`] gives the same interval as what a server says, a [`Part`], over a [`Stretch`].
//! - [`piece_hull`] gives the hull of what several servers say, over their groups, and
//!   [`is_inside`] whether it lies inside a bound.
//!
//! Each is exact by its contract, takes no memory and refuses nothing. [`laws`] has what holds of
//! the definitions.
//!
//! The best samples of a server, as `best_samples` of `worked_examples/src/checking/pieces.rt` asks
//! for them, which the gate runs:
//!
//! ```text
//! let samples = [twenty_milliseconds()];
//! assert_equal(&rt, best(&samples, server, TICK, TICK, 0), chosen);
//! ```

#![tactic(auto)]

mod choice;
mod gathering;
mod group;
pub mod laws;
mod part;
mod piece;
mod steps;
mod stretch;

pub use choice::best;
pub use gathering::BestSamples;
pub use group::{is_inside, piece_hull};
pub use part::{Part, part_of};
pub use piece::piece_interval;
pub use steps::piece_end;
pub use stretch::Stretch;
