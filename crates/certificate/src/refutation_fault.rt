//! Why a refutation is refused.

ghost use Rattle.std.specs.Prelude.{◌≡◌};
ghost use Rattle.certificate.specs.declared.refutation_fault.RefutationFault.TheVariants.{Memory};
ghost use Rattle.certificate.specs.RefutationFault.{number_of};

use std::alloc::AllocError;
use thiserror::Error;

/// Why a refutation is refused: the first fault that it has.
#[derive(Clone, Copy, Debug, PartialEq, Eq, Error)]
pub enum RefutationFault {
    /// The bytes are no JSON text in UTF-8.
    #[error("the refutation is no JSON text")]
    Json,
    /// The value is no object with exactly the names `error`, `false` and `reading`, the first an
    /// integer of 64 bits with sign, the second an array of at most 32 integers below 256, the
    /// third an integer below 2^64.
    #[error("the refutation isn't an object with an error, false servers and a reading")]
    Shape,
    /// Out of memory.
    #[error("out of memory")]
    Memory,
}

impl RefutationFault {
    /// The fault's number, from 1 in the order of the variants.
    pub fn number(&self) -> u8
        ensures { result ≡ number_of self.now }
    {
        match self {
            RefutationFault::Json => 1,
            RefutationFault::Shape => 2,
            RefutationFault::Memory => 3,
        }
    }
}

impl From<AllocError> for RefutationFault {
    ghost from_gives = { λ _ fault. fault ≡ Memory };

    fn from(_error: AllocError) -> RefutationFault {
        RefutationFault::Memory
    }
}
