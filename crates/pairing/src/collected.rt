//! What is collected of a capture.

ghost use Rattle.std.specs.Prelude.{◌≡◌, IfOk};
ghost use Rattle.pairing.specs.Compact.{compact_data};
ghost use Rattle.pairing.specs.Pairing.{data_of};

use crate::compact::CompactCollection;
use crate::counts::Counts;
use crate::exchange::Exchange;
use crate::to_exchange::ToExchange;
use std::alloc::{AllocError, Global};

/// The exchanges of a capture, in the order of their replies, and its counts.
#[derive(Debug, Drop)]
pub struct Collected {
    /// At most 1,000,000 exchanges.
    pub exchanges: Vec<Exchange>,
    /// How many records of each kind there are.
    pub counts: Counts,
}

impl Collected {
    /// The exchanges that are held, as they are given.
    pub(crate) fn new(alloc: Global, held: &CompactCollection) -> Result<Collected, AllocError>
        ensures { IfOk result (λ c. data_of c ≡ compact_data held.now) }
    {
        let mut exchanges = Vec::with_capacity(alloc, held.exchanges.len())?;
        for exchange in &held.exchanges {
            exchanges.push(exchange.to_exchange())?;
        }
        Ok(Collected {
            exchanges,
            counts: held.counts,
        })
    }
}
