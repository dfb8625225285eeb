//! The listing of a capture: a line for each NTP packet, and a closing line if the capture ends
//! whole.
//!
//! `run_list` lists what a feed gives, `list_from` what is to come of any source of records. Both
//! promise what every engine does, `Reports` of the crate `report`, for the text that
//! `specs/Listing` says. `answer_list` is the whole command, up to its exit status.
//!
//! A file listed to a sink, as `lists_cut` of `worked_examples/src/engines/listings.rt`, which the
//! gate runs:
//!
//! ```text
//! let (feed, answer) = run_list(alloc, TestFeed::new(file, cut, None), &mut out);
//! let count = lines_of(rt, out.bytes(), lines);
//! ```

#![tactic(auto)]

mod command;
pub mod laws;
mod list;
mod packet_line;
mod record;
mod run;

pub use command::answer_list;
pub use list::list_from;
pub use packet_line::write_packet_line;
pub use run::run_list;
