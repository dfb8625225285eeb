//! What a run answers.

ghost use Rattle.std.specs.Prelude.{◌≡◌};
ghost use Rattle.report.specs.declared.fault.RunFault.TheVariants.{Memory};
ghost use Rattle.report.specs.Fault.{number_of, run_fault_of, claim_run_fault_of, certificate_run_fault_of, refutation_run_fault_of, times_run_fault_of};

use certificate::{CertificateFault, RefutationFault};
use claim_file::ClaimFault;
use cover_certificate::{AnyFault, CoverFault};
use pcap_reader::CaptureFault;
use reading_time::TimesFault;
use std::alloc::AllocError;
use thiserror::Error;

/// What a run that came to its end says.
#[derive(Clone, Copy, Debug, PartialEq, Eq)]
pub enum Outcome {
    /// Yes.
    Yes,
    /// No: only commands that answer a question say it.
    No,
}

/// An input of a run.
#[derive(Clone, Copy, Debug, PartialEq, Eq)]
pub enum Input {
    /// The claim.
    Claim,
    /// The packet capture.
    Capture,
    /// The certificate.
    Certificate,
    /// The refutation.
    Refutation,
    /// The file of sums, to which the others are held.
    Sums,
    /// The file of readings.
    Times,
}

/// Why inputs can't be held to a file of sums.
#[derive(Clone, Copy, Debug, PartialEq, Eq, Error)]
pub enum SumsFault {
    /// The line of this number, from 1, isn't one that `sha256sum` writes, or gives another sum
    /// for a name than an earlier line.
    #[error("line {0} has another form")]
    Form(u64),
    /// No line has the name of this input.
    #[error("an input is missing")]
    Missing(Input),
    /// The bytes of this input have another sum.
    #[error("the sum of an input differs")]
    Differ(Input),
}

/// Why a run was given up.
#[derive(Clone, Copy, Debug, PartialEq, Eq, Error)]
pub enum RunFault {
    /// The capture is refused.
    #[error("the capture is refused: {0}")]
    Capture(CaptureFault),
    /// The claim is refused.
    #[error("the claim is refused: {0}")]
    Claim(ClaimFault),
    /// The certificate is refused.
    #[error("the certificate is refused: {0}")]
    Certificate(AnyFault),
    /// The refutation is refused.
    #[error("the refutation is refused: {0}")]
    Refutation(RefutationFault),
    /// The capture has over 1,000,000 exchanges.
    #[error("over 1000000 exchanges")]
    Exchanges,
    /// The claimed span has over 100,000 pieces of the length that is asked for.
    #[error("over 100000 pieces")]
    Pieces,
    /// An input is longer than its limit.
    #[error("an input is too big")]
    TooBig(Input),
    /// The device of an input failed.
    #[error("the device of an input failed")]
    Device(Input),
    /// The output failed after this many bytes of the text had gone out.
    #[error("the output failed after {0} bytes")]
    Write(u64),
    /// Out of memory.
    #[error("out of memory")]
    Memory,
    /// The inputs can't be held to their sums, or differ from them.
    #[error("the sums are refused: {0}")]
    Sums(SumsFault),
    /// The file of readings is refused.
    #[error("the times are refused: {0}")]
    Times(TimesFault),
}

impl RunFault {
    /// The fault's number, from 1 to 12 in the order of the variants.
    pub fn number(&self) -> u8
        ensures { result ≡ number_of self.now }
    {
        match self {
            RunFault::Capture(_) => 1,
            RunFault::Claim(_) => 2,
            RunFault::Certificate(_) => 3,
            RunFault::Refutation(_) => 4,
            RunFault::Exchanges => 5,
            RunFault::Pieces => 6,
            RunFault::TooBig(_) => 7,
            RunFault::Device(_) => 8,
            RunFault::Write(_) => 9,
            RunFault::Memory => 10,
            RunFault::Sums(_) => 11,
            RunFault::Times(_) => 12,
        }
    }
}

impl From<CaptureFault> for RunFault {
    ghost from_gives = { λ fault e. e ≡ run_fault_of fault };

    fn from(fault: CaptureFault) -> RunFault {
        match fault {
            CaptureFault::Read => RunFault::Device(Input::Capture),
            CaptureFault::Memory => RunFault::Memory,
            fault => RunFault::Capture(fault),
        }
    }
}

impl From<ClaimFault> for RunFault {
    ghost from_gives = { λ fault e. e ≡ claim_run_fault_of fault };

    fn from(fault: ClaimFault) -> RunFault {
        match fault {
            ClaimFault::Memory => RunFault::Memory,
            fault => RunFault::Claim(fault),
        }
    }
}

impl From<AnyFault> for RunFault {
    ghost from_gives = { λ fault e. e ≡ certificate_run_fault_of fault };

    fn from(fault: AnyFault) -> RunFault {
        match fault {
            AnyFault::OfPieces(of_pieces) => match of_pieces {
                CertificateFault::Memory => RunFault::Memory,
                _ => RunFault::Certificate(fault),
            },
            AnyFault::ByCovers(by_covers) => match by_covers {
                CoverFault::Memory => RunFault::Memory,
                _ => RunFault::Certificate(fault),
            },
        }
    }
}

impl From<RefutationFault> for RunFault {
    ghost from_gives = { λ fault e. e ≡ refutation_run_fault_of fault };

    fn from(fault: RefutationFault) -> RunFault {
        match fault {
            RefutationFault::Memory => RunFault::Memory,
            fault => RunFault::Refutation(fault),
        }
    }
}

impl From<TimesFault> for RunFault {
    ghost from_gives = { λ fault e. e ≡ times_run_fault_of fault };

    fn from(fault: TimesFault) -> RunFault {
        match fault {
            TimesFault::Memory => RunFault::Memory,
            fault => RunFault::Times(fault),
        }
    }
}

impl From<AllocError> for RunFault {
    ghost from_gives = { λ _ e. e ≡ Memory };

    fn from(_e: AllocError) -> RunFault {
        RunFault::Memory
    }
}
