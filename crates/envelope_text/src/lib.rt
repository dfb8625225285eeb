//! The text of `envelope`.
//!
//! [`envelope_text`] shows what is known of the clock's error in each piece of a span, and the
//! least bound that holds in all of them; what its lines say was calculated before. [`laws`] has
//! what holds of its columns.
//!
//! The text of an envelope that was found, as `tell` of `audit/src/question/envelope.rt` has it
//! made, with its proof:
//!
//! ```text
//! let text = envelope_text(alloc, style, self, samples, &evidence.claim, envelope, line);
//! publish_text(out, text, outcome_of(envelope.least))
//! ```

#![tactic(auto)]

mod envelope;
pub mod laws;
mod least_line;
mod step;

pub use envelope::{EnvelopeOptions, PLAIN_ENVELOPE, envelope_text};
pub use least_line::LeastLine;
pub use step::Step;
