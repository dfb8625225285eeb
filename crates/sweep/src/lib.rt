//! The samples that make a server's interval narrowest, over every piece of a span at once.
//!
//! [`best_of_pieces`] gives for each of many consecutive pieces what [`span_cover::best`] gives for
//! one, and looks at each sample a few times in all, not once for each piece.
//!
//! A sample's end is moved outwards by the widening of the greatest distance between its window and
//! the piece. If the middle of the window isn't after the middle of the piece, that distance runs
//! from the window's begin to the piece's end, and so the moved end is decided by one number of the
//! sample and one of the piece. From piece to piece more samples become early in this sense, and
//! none ceases to be. So passes over the samples, in the order in which they become early, say
//! which is the highest at each time, and others do the same with time running backwards, for the
//! samples that are late. The better of the two is the best of all.
//!
//! Of several samples that agree the first is wanted, and rounding makes more of them agree. So the
//! highest level over a piece is found first, and then the first index that reaches it. Mostly only
//! the highest sample does. Else the indices are cut into blocks, each with the height below which
//! one of its samples lies, and one of 128 is chosen three times.
//!
//! Where the pieces aren't known beforehand, [`tables_of`] lays the samples of each server out
//! once, by a sort, and [`parts_near`] says by a search what the best of them say over any one
//! piece. Of the samples that are early the table has only those that are higher than all before
//! them, so that the last of these up to the piece's middle is the highest. The search goes on from
//! where the last one ended: if the next piece lies near, it takes a few steps in place of some
//! twenty.
//!
//! What the servers say over any one piece, as `parts_over` of `finder/src/longest.rt` asks for it,
//! with its proof:
//!
//! ```text
//! let (begin, end) = (i128::from(begin), i128::from(end));
//! parts_near(tables, places, begin, end, claim.drift_ppb)
//! ```

#![tactic(auto)]

mod block;
mod choice;
mod duration;
mod extreme;
mod lead;
mod passage;
mod pieces;
mod places;
mod prefix_maximum;
mod queue;
mod table;
mod tick;
mod top;
mod unsigned_stretch;

pub use duration::{Duration, durations_near};
pub use extreme::servers_of;
pub use pieces::best_of_pieces;
pub use places::Places;
pub use table::{BestTable, parts_near, tables_of};
