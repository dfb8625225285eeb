//! Why a certificate is refused.

ghost use Rattle.std.specs.Prelude.{◌≡◌};
ghost use Rattle.certificate.specs.declared.fault.CertificateFault.TheVariants.{Json, Memory};
ghost use Rattle.certificate.specs.Fault.{number_of};

use json::Invalid;
use std::alloc::AllocError;
use thiserror::Error;

/// Why a certificate is refused: the first fault that it has. Pieces are numbered from 0.
#[derive(Clone, Copy, Debug, PartialEq, Eq, Error)]
pub enum CertificateFault {
    /// The bytes are no JSON text in UTF-8.
    #[error("the certificate is no JSON text")]
    Json,
    /// The value is no object with the one name `pieces` whose value is an array.
    #[error("the certificate isn't an object with an array of pieces")]
    Top,
    /// The piece of this number is no object with exactly the names `entries` and `upto`, the one
    /// an array of pairs of integers below 2^32, the other an integer below 2^64.
    #[error("piece {0} of the certificate isn't an array of entries and an end")]
    Shape(u32),
    /// The piece of this number has over 32 entries.
    #[error("piece {0} of the certificate has over 32 entries")]
    TooManyEntries(u32),
    /// Over 100,000 pieces. It is found before any piece is looked at.
    #[error("the certificate has over 100000 pieces")]
    TooManyPieces,
    /// Out of memory.
    #[error("out of memory")]
    Memory,
}

/// A part of a certificate, or the first fault that it has.
pub(crate) type Judged<T> = Result<T, CertificateFault>;

impl CertificateFault {
    /// The fault's number, from 1 in the order of the variants.
    pub fn number(&self) -> u8
        ensures { result ≡ number_of self.now }
    {
        match self {
            CertificateFault::Json => 1,
            CertificateFault::Top => 2,
            CertificateFault::Shape(_) => 3,
            CertificateFault::TooManyEntries(_) => 4,
            CertificateFault::TooManyPieces => 5,
            CertificateFault::Memory => 6,
        }
    }
}

impl From<AllocError> for CertificateFault {
    ghost from_gives = { λ _ fault. fault ≡ Memory };

    fn from(_error: AllocError) -> CertificateFault {
        CertificateFault::Memory
    }
}

impl From<Invalid> for CertificateFault {
    ghost from_gives = { λ _ fault. fault ≡ Json };

    fn from(_error: Invalid) -> CertificateFault {
        CertificateFault::Json
    }
}
