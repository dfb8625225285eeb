//! A feed under the operand that names it.

use byte_stream::{Feed, FeedFault};
use summed_inputs::NamedFeed;

/// An input that was opened, under its name.
#[derive(Drop)]
pub(crate) struct Named<'a, F> {
    /// The operand that names it.
    pub(crate) name: &'a str,
    /// What was opened.
    pub(crate) feed: F,
}

impl<'a, F: Feed> Feed for Named<'a, F> {
    ghost state = { λ named. F.state named.feed };

    fn pull(&mut self, into: &mut [u8]) -> Result<usize, FeedFault> {
        self.feed.pull(into)
    }

    fn faults(&self) -> u64 {
        self.feed.faults()
    }
}

impl<'a, F: Feed> NamedFeed for Named<'a, F> {
    ghost named = { λ named. named.name.now };

    fn name(&self) -> &str {
        self.name
    }
}
