//! Moments in whole ticks of 2^-32 second, counted from 1970-01-01T00:00:00Z.
//!
//! - `low` and `high` give the window of a capture's record, rounded outwards, so that it holds the
//!   moment that was recorded.
//! - `unfold` gives the one moment near another that a 64-bit NTP timestamp stands for, whatever
//!   its era.
//! - `ns_down` and `ns_up` round nanoseconds to ticks.
//!
//! Each is exact by its contract, takes no memory and refuses nothing. `laws` has what holds of the
//! definitions.
//!
//! The window of a record, as `windows_of_microseconds` of `worked_examples/src/readers/ticks.rt`
//! asks for it, which the gate runs:
//!
//! ```text
//! let window = (low(sec, sub, Unit::Micro), high(sec, sub, Unit::Micro));
//! assert_equal_at(&rt, window, (first, last), (sec, sub));
//! ```

#![tactic(auto)]

pub mod laws;
mod nanoseconds;
mod stamp;
mod unit;
mod window;

pub use nanoseconds::{TICKS_PER_SECOND, ns_down, ns_up};
pub use stamp::{ERA, unfold};
pub use unit::{NANOSECONDS_PER_SECOND, Unit};
pub use window::{high, low};
