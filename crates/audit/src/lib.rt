//! What a capture shows of a claim: one engine for every question.
//!
//! [`run`] reads the claim, then the question's second input if it has one, and then the capture,
//! and writes its text, which is made whole before or, if it's the samples for a program, line by
//! line as it goes out; [`run_twice`] tells what was found for a program and then in another style;
//! [`answer`] does as `run` and reports the answer by an exit status; [`read_when`] reads when a
//! clock showed a reading, to be put in order with one of another. What may
//! be asked is a [`Question`], a small module for each command in `question` and in `specs/`, and
//! a text has a style, for a program or for a person; how it is shown is said by audit_text.
//! `specs/Run` says what a run needs and promises, `specs/Report` what it writes, and
//! `specs/Question` what a question is. [`answer_check`] is the theorem. [`run_samples`],
//! [`run_at`], [`run_check`], [`run_find`], [`run_refute`] and [`run_seek`] are the engines of some
//! commands, for a program, with a hasher of a fixed key.
//!
//! A run on feeds, as `run` of `worked_examples/src/engines/trial.rt`, which the gate runs:
//!
//! ```text
//! Command::Ask(request) => {
//!     audit::run(alloc, request, style, first, none, capture, out, hasher)
//! }
//! ```

#![tactic(auto)]

mod capture_input;
mod commands;
mod engine;
mod evidence;
pub mod laws;
mod least_line;
mod question;
mod sample_list;
mod sample_output;
mod second;
mod whole_text;

pub use commands::{answer_check, run_at, run_check, run_find, run_refute, run_samples, run_seek};
pub use engine::{Outputs, answer, read_when, run, run_twice};
pub use envelope_text::{EnvelopeOptions, PLAIN_ENVELOPE, Step};
pub use evidence::Evidence;
pub use line_writer::Style;
pub use question::{
    At, AtByCovers, AtReading, Check, Find, OrderAfter, OrderWithin, Question, Readings,
    ReadingsByCovers, Refute, Request, RequestFinding, Settle,
};
pub use second::{SecondInput, SecondSource};
pub use true_time::When;
