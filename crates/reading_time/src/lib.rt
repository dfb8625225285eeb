//! Readings of a clock, as texts write them: a time in UTC or in Unix seconds, of which a fraction
//! may be known, stands for as long as its last digit says.
//!
//! [`read_reading`] gives the reading of a text and the ticks for which it stands, [`read_times`]
//! those of a file, one a line, or the first line that is none. [`laws`] say what the ticks are.
//!
//! What a line says, as `read_times` of `reading_time/src/times.rt` asks for it, with its proof:
//!
//! ```text
//! match read_reading(line) {
//!     Some(reading) => readings.push(reading).map_err(AllocError::from)?,
//!     None => return Err(TimesFault::Time(done + 1)),
//! }
//! ```

#![tactic(auto)]

mod decimal;
mod fault;
pub mod laws;
mod reading;
mod times;

pub use fault::TimesFault;
pub use reading::{Reading, read_reading};
pub use times::{MAX_READINGS, Times, read_times};
