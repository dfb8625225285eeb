//! A question, answered on inputs that are read whole into memory and held to their sums.
//!
//! What a file holds isn't known before it is read, so nothing can be promised beforehand of its
//! bytes. Here the inputs are read whole into memory, each is held to the SHA-256 that a file of
//! sums gives for its name, the same memory is judged, by the engine of the crate audit, and it is
//! handed back. Of exit status 0 and 1 [`answer_by_sums`] says that what it hands back has these
//! sums, and that the answer is the definitions' for it (`specs/Answer`); [`laws`] say what that
//! shows.
//!
//! Once the inputs are held to their sums by [`hold_inputs`], their bytes are lent to the engine
//! (`summed_inputs/src/engine.rt`):
//!
//! ```text
//! let mut claim = LentFeed::new(read.claim.as_slice());
//! let mut second = LentSecond(LentFeed::new(read.second.as_slice()));
//! let capture = LentFeed::new(read.capture.as_slice());
//! let (claim, second) = (&mut claim, &mut second);
//! let (_, conclusion) = answer(
//!     alloc, question, style, claim, second, capture, to, hasher,
//! );
//! ```

#![tactic(auto)]

mod engine;
mod holding;
mod input_bytes;
mod inputs;
pub mod laws;
mod lent_feed;
mod named_feed;
mod second;
mod sums;

pub use engine::answer_by_sums;
pub use input_bytes::InputBytes;
pub use inputs::hold_inputs;
pub use lent_feed::LentFeed;
pub use named_feed::NamedFeed;
pub use second::{SummedInput, SummedSource};
pub use sums::MAX_SUMS;
