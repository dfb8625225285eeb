//! Why a file of readings is refused.

ghost use Rattle.std.specs.Prelude.{◌≡◌};
ghost use Rattle.reading_time.specs.Fault.{number_of};
ghost use Rattle.reading_time.specs.declared.fault.TimesFault.TheVariants.{Memory};

use std::alloc::AllocError;
use thiserror::Error;

/// Why a file of readings is refused.
#[derive(Clone, Copy, Debug, PartialEq, Eq, Error)]
pub enum TimesFault {
    /// The line of this number, from 1, is the first that isn't a reading.
    #[error("line {0} isn't a time")]
    Time(u64),
    /// There are over 1,000,000 lines.
    #[error("over 1000000 lines")]
    TooMany,
    /// Out of memory.
    #[error("out of memory")]
    Memory,
}

impl TimesFault {
    /// The fault's number, from 1 in the order of the variants.
    pub fn number(&self) -> u8
        ensures { result ≡ number_of self.now }
    {
        match self {
            TimesFault::Time(_) => 1,
            TimesFault::TooMany => 2,
            TimesFault::Memory => 3,
        }
    }
}

impl From<AllocError> for TimesFault {
    ghost from_gives = { λ _ fault. fault ≡ Memory };

    fn from(_error: AllocError) -> TimesFault {
        TimesFault::Memory
    }
}
