//! What a certificate by covers says: pairs of exchanges that can't all be of true servers, and for
//! each way in which servers may be false, pieces of the span that go by the others.
//!
//! [`read_covers`] gives the certificate that a text says, or why it says none, and
//! [`write_covers`] the text that says it. A certificate as ever, of pieces alone, is no such text,
//! and one of these is none as ever: each reader refuses the other's, by its names.
//!
//! How the text of a case is written, from `push_case` of `cover_certificate/src/writing.rt`, with
//! its proof:
//!
//! ```text
//! push_groups(text, &mut line, &case.groups)?;
//! text.extend_from_slice(b"],\"pieces\":[")?;
//! push_pieces(text, &case.pieces)?;
//! ```

#![tactic(auto)]

mod any;
mod case;
mod cases;
mod cover_certificate;
mod entry;
mod fault;
mod groups;
pub mod laws;
mod piece;
mod pieces;
mod pieces_writing;
mod reading;
mod writing;

pub use any::{AnyCertificate, AnyFault, read_any};
pub use cover_certificate::{Case, CoverCertificate, MAX_CASES, MAX_CONFLICTS};
pub use fault::CoverFault;
pub use reading::read_covers;
pub use writing::write_covers;
