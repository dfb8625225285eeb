//! The NTP packet header (RFC 5905, section 7.3), read in place.
//!
//! `view` shows the first 48 bytes of a payload as a header. Each reader of an `NtpView` gives the
//! number that one field's fixed bytes hold, the highest byte first, and `root_distance` how far
//! the sender says that it is from its primary source. `packet` finds the NTP packet of a frame.
//! Nothing is copied or allocated.
//!
//! What a payload announces, as `adds_up_the_root_distance` of
//! `worked_examples/src/readers/headers.rt` asks, which the gate runs:
//!
//! ```text
//! let got = view(&payload).map(|header| header.root_distance());
//! assert_equal_at(&rt, got, Some(want), (delay, dispersion, precision));
//! ```

#![tactic(auto)]

mod distance;
mod frame;
mod header;
pub mod kinds;
pub mod laws;

pub use frame::{NTP_PORT, packet};
pub use header::{NtpView, view};
