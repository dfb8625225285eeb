//! How bytes come and go: feeds, from which they are pulled, and sinks, to which they are pushed.
//!
//! What a call does with bytes is said for known ones, as those in memory are; how it counts the
//! faults of its device is said always. A reader and a writer make a feed and a sink that repeat
//! nothing that failed. Two doubles for tests cut and fail as their contracts say.
//!
//! One pull on a device, as `pull` of `worked_examples/src/engines/streams.rt` does it, which the
//! gate runs:
//!
//! ```text
//! let mut feed = ReadFeed::new(&mut device);
//! let pulled = feed.pull(&mut [0; 4]);
//! (pulled.is_ok(), feed.faults(), device.calls)
//! ```

#![tactic(auto)]

mod feed;
mod interruption;
mod pace;
mod read_feed;
mod reserved;
mod sink;
mod test_feed;
mod test_sink;
mod write_sink;

pub use feed::{Feed, FeedFault};
pub use pace::Cut;
pub use read_feed::ReadFeed;
pub use sink::{Sink, SinkFault};
pub use test_feed::TestFeed;
pub use test_sink::TestSink;
pub use write_sink::WriteSink;
