//! When it was that a clock showed a reading: the earliest and the latest true time, by the hull of
//! its error.
//!
//! [`readings_text`] gives the text for many readings: the samples are laid out in tables once, and
//! a hull is a search in them. The hulls are found in the order of the readings' ticks, and written
//! in the readings' own. With hulls that a caller has, [`add_reading`] makes the lines. [`laws`]
//! say that true time lies between the two. For one reading [`parts_at`] gives what each server
//! says, and [`add_true_time`] adds the two to a text.
//!
//! The line of a reading, as `add_readings` of `true_time/src/reading_line.rt` makes it, with its
//! proof:
//!
//! ```text
//! let hull = hull_at(hulls, number, tables, &mut places, claim, reading);
//! add_reading(text, style, reading, hull)?;
//! ```

#![tactic(auto)]

mod found_hulls;
mod hull;
pub mod laws;
mod order;
mod order_line;
mod reading_line;
mod true_text;
mod when;

pub use found_hulls::numbers_in_order;
pub use hull::parts_at;
pub use order::{Order, order_of, order_of_one};
pub use order_line::order_text;
pub use reading_line::{add_heading, add_reading, readings_text};
pub use true_text::add_true_time;
pub use when::{When, when_at};
