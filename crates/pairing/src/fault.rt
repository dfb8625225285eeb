//! Why exchanges can't be collected.

ghost use Rattle.std.specs.Prelude.{◌≡◌};
ghost use Rattle.pairing.specs.Fault.{number_of};
ghost use Rattle.pairing.specs.declared.fault.PairFault.TheVariants.{Memory};

use pcap_reader::CaptureFault;
use std::alloc::AllocError;
use thiserror::Error;

/// Why exchanges can't be collected.
#[derive(Clone, Copy, Debug, PartialEq, Eq, Error)]
pub enum PairFault {
    /// The capture is refused, or its device failed.
    #[error("{0}")]
    Capture(CaptureFault),
    /// The whole capture has over 1,000,000 exchanges.
    #[error("over 1000000 exchanges")]
    TooManyExchanges,
    /// Out of memory.
    #[error("out of memory")]
    Memory,
}

impl PairFault {
    /// The fault's number, from 1 in the order of the variants.
    pub fn number(&self) -> u8
        ensures { result ≡ number_of self.now }
    {
        match self {
            PairFault::Capture(_) => 1,
            PairFault::TooManyExchanges => 2,
            PairFault::Memory => 3,
        }
    }
}

impl From<AllocError> for PairFault {
    ghost from_gives = { λ _ fault. fault ≡ Memory };

    fn from(_error: AllocError) -> PairFault {
        PairFault::Memory
    }
}
