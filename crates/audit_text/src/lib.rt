//! The texts of the commands that hold a capture against a claim.
//!
//! [`samples_text`] shows the samples of a capture, [`parts_text`] what each server says about the
//! clock at one moment, [`check_text`] a verdict and what it stands on, [`nothing_text`] a piece
//! for which no certificate was found, and [`refuted_text`] whether a refutation is accepted. Each
//! makes a whole text, of lines that end with a line feed, or is out of memory; what the lines say
//! was calculated before. The line of each notion stands in `specs/` under its name.
//!
//! [`shown_answer`] and its like tell a person what `settle`, `find` and `refute` came to, in place
//! of the file for programs.
//!
//! [`write_sample_line`] and [`write_counts_line`] write the lines of `samples` for a program one
//! by one, in one place and with no memory.
//!
//! What several servers say, and the hull over their groups, as `at_text` of
//! `audit/src/question/at.rt` has it shown, with its proof:
//!
//! ```text
//! let hull = piece_hull(parts, claim.groups.as_slice(), claim.false_max);
//! parts_text(alloc, style, claim, parts, hull)
//! ```

#![tactic(auto)]

mod answer;
mod bound_lines;
mod check_report;
mod counts_line;
mod cover_lines;
mod excess;
pub mod laws;
mod nothing;
mod parts;
mod refutation;
mod refutation_lines;
mod sample_line;
mod samples;
mod second;
mod settlement;
mod silent_lines;
mod table;
mod verdict_line;

pub use answer::{
    covers_answer, evidence_answer, found_answer, open_answer, refutation_answer, shown_answer,
};
pub use check_report::{Findings, add_about, check_text};
pub use counts_line::write_counts_line;
pub use cover_lines::covers_text;
pub use nothing::nothing_text;
pub use parts::parts_text;
pub use refutation::{no_refutation_text, refuted_text};
pub use sample_line::{server_of, write_sample_line};
pub use samples::samples_text;
pub use second::second_of;
pub use settlement::{conflicts_text, evidence_text, open_text};
pub use table::{add_heading, add_row, hull_high, hull_low, is_plain, word_for};
pub use verdict_line::AnyVerdict;
