//! The program as it is called: the words of a command line, and what they call for.
//!
//! The words are read by the table of commands, and what they call for is done, over any files and
//! outputs; `specs/Run` says what follows. [`run_process`] does so with the words and the outputs
//! of the process.
//!
//! `run`, in `command_line/src/run.rt`:
//!
//! ```text
//! match read_words(alloc, words) {
//!     Ok(invocation) => respond(alloc, files, invocation, to, hasher),
//!     Err(AllocError) => out_of_memory(&mut to.err),
//! }
//! ```

#![tactic(auto)]

mod advice;
mod command;
pub mod laws;
mod misuse;
pub mod run;
mod words;

pub use run::run_process;
pub use words::words_of;
