//! The program, but for its command line and its host: the response to an invocation, over any
//! files and outputs.
//!
//! [`respond`] opens the files that an invocation names, each once and in order, and calls the
//! engine of its command. `specs/Run` says, command by command, what is opened by which path, what
//! is written and how that is reported, for whatever is known to stand at the paths: the [`Files`]
//! of a host know nothing, and a [`Table`], which serves tests, knows all.
//!
//! A judgement, as `judge_files` of `program/src/run.rt` makes it:
//!
//! ```text
//! match open_judged(files, judgement.second(), paths) {
//!     Ok(opened) => judge(alloc, judgement, paths, opened, to, hasher),
//!     Err(fault) => (None, conclude(&Err(fault), &mut to.err)),
//! }
//! ```

#![tactic(auto)]

mod about;
mod asked;
mod drafted;
mod files;
mod hindrance;
mod inputs;
mod invocation;
mod named;
mod response;
mod run;
mod table;

pub use about::VERSION;
pub use asked::Asked;
pub use files::{Files, OpenFault};
pub use hindrance::Hindrance;
pub use invocation::{
    Invocation, JudgedPaths, Judgement, Listed, Paths, STDIN, Shown, path_or_none,
};
pub use response::Summed;
pub use run::{Response, respond};
pub use table::{Place, Put, Table};
