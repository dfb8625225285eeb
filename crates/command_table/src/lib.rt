//! The commands of ntpaudit with their operands, options and help, each in a file of its own, as
//! clap reads them. `specs/Commands` is the table of what can be typed; [`ntpaudit`] is declared as
//! it has it.
//!
//! The words that it takes apart, as `read_words` of `command_line/src/words.rt` has it, with its
//! proof:
//!
//! ```text
//! match ntpaudit(alloc, VERSION)?.try_get_matches_from(words) {
//!     Ok(matches) => read_once(alloc, invocation_of(alloc, &matches)?),
//! ```

#![tactic(auto)]

mod argument;
mod at;
mod check;
mod command;
mod envelope;
mod evidence;
mod find;
mod list;
mod order;
mod program;
mod refute;
mod samples;
mod settle;

pub use program::ntpaudit;
