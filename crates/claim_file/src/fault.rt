//! Why a claim is refused.

ghost use Rattle.std.specs.Prelude.{◌≡◌};
ghost use Rattle.claim_file.specs.declared.fault.ClaimFault.TheVariants.{Memory};
ghost use Rattle.claim_file.specs.Fault.{number_of};

use std::alloc::AllocError;
use thiserror::Error;

/// Why a claim is refused: the first of these faults that it has, in this order, `Groups` last.
#[derive(Clone, Copy, Debug, PartialEq, Eq, Error)]
pub enum ClaimFault {
    /// The bytes are no JSON text in UTF-8.
    #[error("the claim is no JSON text")]
    Json,
    /// If the code is 0, the value is no object or has an unknown name. Otherwise the member of
    /// that code is absent or of another kind: 1 `client`, 2 `servers`, 3 `false_max`, 4 `from`,
    /// 5 `to`, 6 `bound_ns`, 7 `drift_ppb`, 8 `reading_ns`, 9 `groups`, which may be absent.
    #[error("field {0} of the claim is absent or of another kind")]
    Field(u8),
    /// The client or a server is no IPv4 address.
    #[error("an address of the claim isn't four numbers with dots between them")]
    Address,
    /// The begin or the end of the span is no time from 1970-01-01T00:00:00Z to
    /// 2106-02-07T06:28:15Z.
    #[error("a time of the claim isn't of the form YYYY-MM-DDTHH:MM:SSZ")]
    Time,
    /// The number of servers or another number is beyond its limit, or the span ends before it
    /// begins.
    #[error("a number of the claim is out of range")]
    Range,
    /// An address stands twice among the servers, or the client's stands there.
    #[error("an address of the claim stands twice")]
    RepeatedServer,
    /// Out of memory.
    #[error("out of memory")]
    Memory,
    /// The groups leave a server out, hold one twice or another number, or one is empty.
    #[error("the groups of the claim don't hold each server once")]
    Groups,
}

impl ClaimFault {
    /// The fault's number, from 1 in the order of the variants.
    pub fn number(&self) -> u8
        ensures { result ≡ number_of self.now }
    {
        match self {
            ClaimFault::Json => 1,
            ClaimFault::Field(_) => 2,
            ClaimFault::Address => 3,
            ClaimFault::Time => 4,
            ClaimFault::Range => 5,
            ClaimFault::RepeatedServer => 6,
            ClaimFault::Memory => 7,
            ClaimFault::Groups => 8,
        }
    }
}

impl From<AllocError> for ClaimFault {
    ghost from_gives = { λ _ fault. fault ≡ Memory };

    fn from(_error: AllocError) -> ClaimFault {
        ClaimFault::Memory
    }
}
