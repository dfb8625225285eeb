//! Why a certificate by covers is refused.

ghost use Rattle.std.specs.Prelude.{◌≡◌};
ghost use Rattle.cover_certificate.specs.declared.fault.CoverFault.TheVariants.{Json, Memory};
ghost use Rattle.cover_certificate.specs.Fault.{number_of};

use json::Invalid;
use std::alloc::AllocError;
use thiserror::Error;

/// Why a certificate by covers is refused: the first fault that it has. Cases are numbered from 0,
/// and pieces from 0 through all cases.
#[derive(Clone, Copy, Debug, PartialEq, Eq, Error)]
pub enum CoverFault {
    /// The bytes are no JSON text in UTF-8.
    #[error("the certificate is no JSON text")]
    Json,
    /// The value is no object with exactly the names `cases` and `conflicts`, whose values are
    /// arrays.
    #[error("the certificate isn't an object with an array of cases and one of conflicts")]
    Top,
    /// Over 528 conflicts.
    #[error("the certificate has over 528 conflicts")]
    TooManyConflicts,
    /// A conflict is no pair of integers below 2^32.
    #[error("a conflict of the certificate isn't a pair of exchanges")]
    Conflicts,
    /// Over 64 cases. It is found once 64 were looked at.
    #[error("the certificate has over 64 cases")]
    TooManyCases,
    /// The case of this number is no object with exactly the names `groups` and `pieces`, the one
    /// an array of at most 32 integers below 256, the other an array.
    #[error("case {0} of the certificate isn't an array of groups and one of pieces")]
    CaseShape(u32),
    /// Over 100,000 pieces, in all cases together. It is found before any piece of the case that
    /// has too many is looked at.
    #[error("the certificate has over 100000 pieces")]
    TooManyPieces,
    /// The piece of this number is no object with exactly the names `entries` and `upto`, the one
    /// an array of pairs of integers below 2^32, the other an integer below 2^64.
    #[error("piece {0} of the certificate isn't an array of entries and an end")]
    Shape(u32),
    /// The piece of this number has over 32 entries.
    #[error("piece {0} of the certificate has over 32 entries")]
    TooManyEntries(u32),
    /// Out of memory.
    #[error("out of memory")]
    Memory,
}

/// A part of a certificate, or the first fault that it has.
pub(crate) type Judged<T> = Result<T, CoverFault>;

impl CoverFault {
    /// The fault's number, from 1 in the order of the variants.
    pub fn number(&self) -> u8
        ensures { result ≡ number_of self.now }
    {
        match self {
            CoverFault::Json => 1,
            CoverFault::Top => 2,
            CoverFault::TooManyConflicts => 3,
            CoverFault::Conflicts => 4,
            CoverFault::TooManyCases => 5,
            CoverFault::CaseShape(_) => 6,
            CoverFault::TooManyPieces => 7,
            CoverFault::Shape(_) => 8,
            CoverFault::TooManyEntries(_) => 9,
            CoverFault::Memory => 10,
        }
    }
}

impl From<AllocError> for CoverFault {
    ghost from_gives = { λ _ fault. fault ≡ Memory };

    fn from(_error: AllocError) -> CoverFault {
        CoverFault::Memory
    }
}

impl From<Invalid> for CoverFault {
    ghost from_gives = { λ _ fault. fault ≡ Json };

    fn from(_error: Invalid) -> CoverFault {
        CoverFault::Json
    }
}
