//! The records of a classic packet capture (the savefile format of libpcap), from a source that
//! gives one at a time.
//!
//! A capture's bytes spell a header and a list of records, in either byte order and with
//! microseconds or nanoseconds. Any other bytes have one fault: the header's, or the first that
//! applies where the longest list of records at their beginning ends, with the place of that
//! record in the file.
//!
//! A caller goes over a source by one loop, whatever holds the bytes, as `count_records` of
//! `worked_examples/src/uses.rt` does, with its proof:
//!
//! ```text
//! match source.next_record() {
//!     Ok(Some(_head)) => count += 1,
//!     Ok(None) => return Ok(count),
//!     Err(fault) => return Err(fault),
//! }
//! ```

#![tactic(auto)]

mod buffered;
mod capture;
mod fault;
mod field;
mod format;
mod header;
mod held;
pub mod laws;
mod record;
mod refill;
mod source;
mod whole;

pub use byte_stream::{Cut, Feed, FeedFault, ReadFeed, TestFeed};
pub use capture::Capture;
pub use fault::CaptureFault;
pub use format::{Endian, Format, RecordHead};
pub use source::RecordSource;
pub use whole::Whole;
