//! Reads a captured Ethernet II frame as the UDP datagram in it, or says why it has none.
//!
//! `datagram` gives the addresses, the ports and the payload exactly if the frame is Ethernet
//! addresses, at most one 802.1Q tag, an IPv4 header, a UDP header, a payload and padding, joined.
//! Any other frame is skipped, for the first of six reasons. Nothing is copied and nothing is
//! allocated. Checksums are not read: a capture on the sending host may see them before the network
//! card fills them in.
//!
//! A frame with padding, as `padding` of `worked_examples/src/readers/frames.rt` reads it, which
//! the gate runs:
//!
//! ```text
//! let mut frame = [0xff; 100];
//! frame[..90].copy_from_slice(&V1[40..130]);
//! assert_equal(&rt, datagram(&frame[..90]), Ok(REQUEST));
//! assert_equal(&rt, datagram(&frame), Ok(REQUEST));
//! ```

#![tactic(auto)]

mod bytes;
mod ethernet;
mod frame;
mod ipv4;
pub mod kinds;
pub mod laws;
mod skip;
mod udp;

pub use frame::datagram;
pub use skip::Skip;
