//! What is said about a fault to a person: what is wrong, with which file, and what to do.
//!
//! [`sentence_of`] has the sentence of each fault, `claim_field` those of a claim's fields, and
//! `kind` and [`obstacle_sentence`] what is done about a file that is something else. They are
//! tables, and no definition says the same again: `tests/system/test_words.py` sees each text.
//! [`explain`] puts a sentence behind the name of the file that the fault is of, with what [`look`]
//! sees there, and names and places into what is to be done. What is seen is no more than help: it
//! changes no sentence's subject and no fault. A terminal obeys nothing of what [`look`], [`shown`]
//! and [`quoted`] give, and nothing of the words but their line feeds, if the files' names are
//! shown so (`laws::words_are_two_lines`).
//!
//! The words are put together as in `explain` of `fault_words/src/explanation.rt`:
//!
//! ```text
//! let known = Known::of_fault(alloc, names, fault, found.kind.is_pipe())?;
//! let sentence = sentence_seen(fault, field, found);
//! words_of(alloc, begin.as_str(), sentence, found.seen.as_str(), &known)
//! ```

#![tactic(auto)]

mod claim_field;
mod claim_look;
mod explanation;
mod input_look;
mod kind;
pub mod laws;
mod obstacle;
mod quote;
mod record_count;
mod record_times;
mod remedy;
mod seen;
mod sentence;
mod slip;
mod subject;

pub use claim_field::field_name;
pub use explanation::{explain, explain_time};
pub use input_look::look;
pub use kind::FileKind;
pub use obstacle::{Obstacle, explain_output, obstacle_sentence};
pub use quote::{quoted, shown};
pub use record_count::look_at_records;
pub use record_times::look_at_times;
pub use remedy::STANDARD_INPUT;
pub use seen::Seen;
pub use sentence::{Sentence, sentence_of};
pub use slip::{ClaimNumbers, Recorded, has_name_twice, slips};
pub use subject::{Names, input_of};
