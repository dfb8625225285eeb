//! What a file of SHA-256 sums says, as `sha256sum` writes it: for each file its digest and name.
//!
//! `read_sums` gives the sums of a text, or its first bad line. `digest_of` finds the digest that
//! they give to a name.
//!
//! The digest of an input under its name, as `digest_for` of `summed_inputs/src/sums.rt` looks for
//! it, with its proof:
//!
//! ```text
//! match digest_of(sums, name.as_bytes()) {
//!     Some(digest) => Ok(digest),
//!     None => Err(RunFault::Sums(SumsFault::Missing(input))),
//! }
//! ```

#![tactic(auto)]

mod fault;
pub mod laws;
mod line;
mod name;
mod reading;
mod sum;

pub use fault::SumFault;
pub use reading::read_sums;
pub use sum::{Sum, digest_of};
