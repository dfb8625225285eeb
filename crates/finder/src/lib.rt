//! Finds certificates and refutations, and how good a bound the samples show.
//!
//! [`find`] cuts the span of a claim into pieces, takes the samples of each server that say most
//! about each piece, and gives either a certificate, which the checker accepts, or the first piece
//! about which they show too little. What it finds is a proposal: nothing rests on it before the
//! checker has said yes. [`find_over`] does so over samples from any source.
//! [`find_envelope_over`] takes the pieces of [`find`], and gives the hull of each and the least
//! bound that holds over all of them. [`least_bound`] gives the least bound with which a
//! certificate of fewest pieces is found: where a course of events fits, no certificate carries a
//! lesser one. [`best_parts`] gives what each server says at one tick. [`find_refutation`] gives a
//! refutation, which the checker accepts, unless it accepts none, and [`find_with_cover`] one with
//! drift at a reading. [`settle`] gives a certificate of
//! fewest pieces, each as long as the bound allows, or a refutation with drift; or else the tick
//! where such pieces stop, all conflicts if no course of events fits, or how few groups have a
//! sample if no more do than may be false. [`laws`] has what holds of the definitions.
//!
//! What is found of a sample, as `finds` of `worked_examples/src/checking/finds.rt` asks for it,
//! which the gate runs:
//!
//! ```text
//! let found = find(alloc, &samples, &claim, step_s);
//! assert_equal_at(rt, answer_of(&found), wanted, (terms, step_s));
//! ```

#![tactic(auto)]

mod carried;
mod drift_refutation;
mod entry;
mod envelope;
mod fault;
mod fewest;
mod found;
mod guess;
mod hull;
pub mod laws;
mod least;
mod leeway;
mod likely;
mod longest;
mod nearest_refutation;
mod neediest;
mod piece;
mod piece_hull;
mod reach;
mod room;
mod settlement;
mod side;
mod table;
mod tick_parts;
mod trial;

pub use carried::{LeastCarried, least_bound, piece_holding};
pub use drift_refutation::find_with_cover;
pub use envelope::{Envelope, find_envelope_over};
pub use fault::FindFault;
pub use found::{Found, find, find_over};
pub use hull::parts;
pub use least::LeastBound;
pub use nearest_refutation::find_refutation;
pub use piece_hull::PieceHull;
pub use settlement::{Settled, exchange_samples, settle};
pub use tick_parts::best_parts;
