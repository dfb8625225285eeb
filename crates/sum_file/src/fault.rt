//! Why a file of sums is refused.

ghost use Rattle.std.specs.Prelude.{◌≡◌};
ghost use Rattle.sum_file.specs.declared.fault.SumFault.TheVariants.{Memory};

use std::alloc::AllocError;
use thiserror::Error;

/// Why a file of sums is refused.
#[derive(Clone, Copy, Debug, PartialEq, Eq, Error)]
pub enum SumFault {
    /// The line of this number, counted from 1, is the first bad one: it isn't a digest of 64
    /// hexadecimal digits and a name as `sha256sum` writes them, or an earlier line gives its name
    /// another digest.
    #[error("line {0} isn't a SHA-256 sum and a name, or disagrees with an earlier one")]
    Form(u64),
    /// Out of memory.
    #[error("out of memory")]
    Memory,
}

impl From<AllocError> for SumFault {
    ghost from_gives = { λ _ fault. fault ≡ Memory };

    fn from(_error: AllocError) -> SumFault {
        SumFault::Memory
    }
}
