//! What a JSON text says (RFC 8259), and the members of an object by name and kind.
//!
//! The members of an object, as `read_value` of `certificate/src/refutation_reading.rt` takes them,
//! with its proof:
//!
//! ```text
//! members_among(value, &["error", "false", "reading"])?;
//! let error = signed_at(value, "error")?;
//! let reading = unsigned_at(value, "reading")?;
//! let items = items_at(value, "false")?;
//! ```

#![tactic(auto)]

mod member;
mod next;
mod number;
mod text;

pub use member::{items_at, members_among, signed_at, text_at, unsigned_at, unsigned_of};
pub use next::{next_unsigned, open_array, open_object, pass_items, pass_members, pass_value};
pub use text::parse;
