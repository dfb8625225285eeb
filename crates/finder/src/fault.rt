//! Why nothing is looked for.

ghost use Rattle.std.specs.Prelude.{◌≡◌};
ghost use Rattle.finder.specs.declared.fault.FindFault.TheVariants.{Memory};
ghost use Rattle.finder.specs.Fault.{number_of};

use std::alloc::AllocError;
use thiserror::Error;

/// Why no certificate is looked for.
#[derive(Clone, Copy, Debug, PartialEq, Eq, Error)]
pub enum FindFault {
    /// The step cuts the span into over 100,000 pieces. It is found before any memory is taken.
    #[error("the span has over 100000 pieces of this length")]
    TooManyPieces,
    /// Out of memory.
    #[error("out of memory")]
    Memory,
}

impl FindFault {
    /// The fault's number, from 1 in the order of the variants.
    pub fn number(&self) -> u8
        ensures { result ≡ number_of self.now }
    {
        match self {
            FindFault::TooManyPieces => 1,
            FindFault::Memory => 2,
        }
    }
}

impl From<AllocError> for FindFault {
    ghost from_gives = { λ _ fault. fault ≡ Memory };

    fn from(_error: AllocError) -> FindFault {
        FindFault::Memory
    }
}
