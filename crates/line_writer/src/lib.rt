//! A line of text, written from right to left into an array of its own.
//!
//! What is written last stands first, so the first piece to write is the line feed. A piece of text
//! is written once, in the place where it stays, which can't fail and takes no memory. The whole
//! line is then one slice to copy.
//!
//! A line of named fields, as `nothing_text` of `audit_text/src/nothing.rt` adds it to a text, with
//! its proof:
//!
//! ```text
//! let fields = [
//!     Field::Word("nothing"),
//!     Field::Named("piece", u64::from(piece)),
//!     Field::Word("hull"),
//!     hull_low(hull),
//!     hull_high(hull),
//! ];
//! add_line(&mut text, style, &fields)?;
//! ```

#![tactic(auto)]

mod date;
mod decimal;
mod endpoint;
mod field;
mod hexadecimal;
pub mod laws;
mod line;
mod millisecond;
mod moment;
mod number;

pub use field::{ColumnKind, Field, Style, add_line, put_fields};
pub use line::{CAPACITY, Line};
pub use millisecond::{longer, shorter};
pub use number::Number;
