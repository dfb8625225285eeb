//! What is said to a person once the answer is out, when the files are looked at again: of a fault,
//! more than its line, and of an answer what looks like a slip of the pen in the claim.
//!
//! Behind a run, as `run_on` of `ntpaudit/src/main.rt` has it:
//!
//! ```text
//! let response = run_process(rt, words, files, hasher);
//! say(rt, &response);
//! ```

#![tactic(auto)]

mod second_look;
mod warning;

pub use second_look::{path_of, say};
