//! Requests and replies of a capture, and the exchanges that they make (RFC 5905, section 8).
//!
//! A reply names its request by its origin timestamp. Its request is the one and only one of the
//! whole capture to that server, from that port of the client, with that transmit timestamp,
//! wherever it stands. `collect` gives the exchanges in the order of their replies, and counts what
//! became of each reply, over any source of records. `source_count` and `common_reference` say what
//! an auditor asks first: how many servers have an exchange, and whether all name one reference.
//!
//! What a claim's capture in memory gives, as `collected` of
//! `worked_examples/src/readers/exchanges.rt` asks, which the gate runs:
//!
//! ```text
//! let claim = assert_ok(rt, read_claim(alloc, claim.as_bytes()));
//! let mut source = assert_ok(rt, Whole::begin(file));
//! assert_ok(rt, collect(alloc, &mut source, &claim))
//! ```

#![tactic(auto)]

mod collected;
mod collection;
mod compact;
mod compact_window;
mod counts;
mod exchange;
mod fault;
mod gathering;
mod hashing;
mod index;
mod join;
pub mod laws;
mod message;
mod refusal;
mod sources;
mod to_exchange;

pub use collected::Collected;
pub use collection::{collect, collect_compact};
pub use compact::{CompactCollection, CompactExchange};
pub use counts::Counts;
pub use exchange::Exchange;
pub use fault::PairFault;
pub use sources::{common_reference, source_count};
pub use to_exchange::ToExchange;
