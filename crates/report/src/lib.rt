//! What every engine shares: its answer and how that is reported, its text on the way to a sink,
//! the inputs that it reads whole, and the words for what it promises.
//!
//! `specs/Reports` says for each answer of an engine what its sink has got and how often its
//! devices have failed, and `specs/Runs` what is left of its inputs. An `Output` is the way of a
//! text to a sink; ended by `close` it keeps that promise, and so does `publish` for a text that is
//! made whole before.
//!
//! A text that is made whole, on its way to a sink, as `goes_out` of
//! `worked_examples/src/engines/reports.rt`, which the gate runs:
//!
//! ```text
//! let made = Ok(Made {
//!     text: assert_ok(rt, b"a text".as_slice().to_vec(alloc)),
//!     outcome: Outcome::No,
//! });
//! assert_equal(rt, publish(&mut out, &made), answer);
//! assert_equal(rt, out.bytes().len(), held);
//! ```

#![tactic(auto)]

mod certificate_input;
mod claim_input;
mod conclusion;
mod delivery;
mod exit_status;
mod fault;
mod fault_text;
mod help;
mod input;
pub mod laws;
mod output;
mod publication;
mod refusal;
mod refutation_input;
mod times_input;

pub use certificate_input::{MAX_CERTIFICATE, read_certificate_from};
pub use claim_input::{MAX_CLAIM, read_claim_from};
pub use conclusion::{Conclusion, conclude};
pub use delivery::deliver;
pub use exit_status::status;
pub use fault::{Input, Outcome, RunFault, SumsFault};
pub use fault_text::{fault_line, input_word};
pub use help::show;
pub use input::{read_input, read_onto};
pub use output::{OUTPUT_CAPACITY, Output, output_buffer};
pub use publication::{Made, publish};
pub use refusal::{refuse, refuse_time};
pub use refutation_input::{MAX_REFUTATION, read_refutation_from};
pub use times_input::{MAX_TIMES, read_times_from};
