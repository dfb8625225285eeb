//! A certificate of either form.

ghost use Rattle.std.specs.Prelude.{◌≡◌, IfOk};
ghost use Rattle.cover_certificate.specs.AnyReading.{IsFewOfAny, any_data, any_of, number_of};
ghost use Rattle.cover_certificate.specs.AnyReading as spec;

use crate::cover_certificate::CoverCertificate;
use crate::fault::CoverFault;
use crate::reading::read_covers;
use certificate::{Certificate, CertificateFault, read_certificate};
use std::alloc::Global;
use thiserror::Error;

/// A certificate of either form.
#[derive(Debug, Drop)]
pub enum AnyCertificate {
    /// Of pieces alone.
    OfPieces(Certificate),
    /// By covers.
    ByCovers(CoverCertificate),
}

/// Why a text is a certificate of neither form.
#[derive(Clone, Copy, Debug, PartialEq, Eq, Error)]
pub enum AnyFault {
    /// It is refused as one of pieces.
    #[error("{0}")]
    OfPieces(CertificateFault),
    /// It has the names of one by covers, and is refused as that.
    #[error("{0}")]
    ByCovers(CoverFault),
}

impl AnyFault {
    /// The fault's number, which it has in its form.
    pub fn number(&self) -> u8
        ensures { result ≡ number_of self.now }
    {
        match self {
            AnyFault::OfPieces(fault) => fault.number(),
            AnyFault::ByCovers(fault) => fault.number(),
        }
    }
}

/// The certificate that the bytes of a JSON text say, in the form whose names it has, or the first
/// fault that it has in that form. With the names of neither it is refused as one of pieces.
pub fn read_any(alloc: Global, bytes: &[u8]) -> Result<AnyCertificate, AnyFault>
    ensures exact { spec.Answers result (any_of bytes.now) }
    ensures few { IfOk result (λ certificate. IsFewOfAny (any_data certificate)) }
{
    match read_certificate(alloc, bytes) {
        Ok(certificate) => Ok(AnyCertificate::OfPieces(certificate)),
        Err(CertificateFault::Top) => match read_covers(alloc, bytes) {
            Ok(certificate) => Ok(AnyCertificate::ByCovers(certificate)),
            Err(CoverFault::Top) => Err(AnyFault::OfPieces(CertificateFault::Top)),
            Err(fault) => Err(AnyFault::ByCovers(fault)),
        },
        Err(fault) => Err(AnyFault::OfPieces(fault)),
    }
}
