//! A feed over a reader.

ghost use Rattle.std.specs.Prelude.{◌≡◌};

use crate::feed::{Feed, FeedFault};
use crate::interruption::MAX_TRIES;
use std::io::{ErrorKind, Read};

/// The bytes of a reader. It takes no memory of its own.
///
/// A read that was interrupted is tried again, up to a thousand times in all. Any other failed
/// read, also one that would block, is a fault at once, and isn't repeated.
#[derive(Debug, Drop)]
pub struct ReadFeed<R> {
    reader: R,
    /// How many bytes it gave, or `u64::MAX` once they are that many.
    taken: u64,
    faults: u64,
}

impl<R: Read> ReadFeed<R> {
    /// The feed of what the reader still gives: no byte was pulled, and no pull has failed.
    pub fn new(reader: R) -> ReadFeed<R>
        ensures { ⟦<ReadFeed<R> as Feed>⟧.state result
            ≡ record { remaining = R.remaining reader; taken = 0; faults = 0 } }
    {
        ReadFeed {
            reader,
            taken: 0,
            faults: 0,
        }
    }

    /// The reader, after the bytes that were pulled.
    pub fn into_reader(self) -> R
        ensures { R.remaining result ≡ (⟦<ReadFeed<R> as Feed>⟧.state self).remaining }
    {
        let ReadFeed {
            reader,
            taken: _,
            faults: _,
        } = self;
        reader
    }
}

impl<R: Read> Feed for ReadFeed<R> {
    ghost state = { λ s.
        record { remaining = R.remaining s.reader; taken = s.taken; faults = s.faults } };

    fn pull(&mut self, into: &mut [u8]) -> Result<usize, FeedFault> {
        for _try in 0..MAX_TRIES {
            match self.reader.read(into) {
                Ok(count) => {
                    self.taken = self.taken.saturating_add(count as u64);
                    return Ok(count);
                }
                Err(error) => {
                    if error.kind() != ErrorKind::Interrupted {
                        break;
                    }
                }
            }
        }
        self.faults += 1;
        Err(FeedFault)
    }

    fn faults(&self) -> u64 {
        self.faults
    }
}
