//! What a claim says: whose clock, which servers, how far from UTC at most, and when.
//!
//! `read_claim` gives the claim that a text says, or why it says none. What it gives keeps every
//! limit that a calculation asks for. `group_count` says how many groups its servers are in, and
//! `with_bound` is the same claim with another bound.
//!
//! What a text is read as, from `answer` of `worked_examples/src/readers/claims.rt`, which the gate
//! runs:
//!
//! ```text
//! match read_claim(alloc, text.as_bytes()) {
//!     Ok(_) => String::from_str(alloc, "read"),
//!     Err(ClaimFault::Field(code)) => format!(in alloc; "field {code}"),
//!     Err(fault) => format!(in alloc; "fault {}", fault.number()),
//! }
//! ```

#![tactic(auto)]

mod address;
mod claim;
mod elements;
mod fault;
mod fields;
mod group;
pub mod laws;
mod reading;
mod time;

pub use claim::{Claim, MAX_BOUND_NS, MAX_DRIFT_PPB, MAX_FALSE, MAX_READING_NS, MAX_SERVERS};
pub use fault::ClaimFault;
pub use group::group_count;
pub use reading::{read_claim, with_bound};
pub use time::read_time;
