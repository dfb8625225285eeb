//! The verdict on a certificate, and why it is no.

ghost use Rattle.std.specs.Prelude.{◌≡◌, ◌≤◌, ◌<◌, length, map, All, vec_len};
ghost use Rattle.checker.specs.Common.{data_of as claim_data, certificate_data, max_pieces, IsLawful as IsLawfulExchange, IsLawfulSample};
ghost use Rattle.checker.specs.Traceability.{samples_of, IsVerdictOn};
ghost use Rattle.checker.specs.Verdict.{verdict_of};

use crate::laws::verdicts_are_traceable;
use crate::piece::piece_fault;
use certificate::Certificate;
use claim_file::Claim;
use pairing::ToExchange;
use sample_interval::kinds::Sample;
use sample_interval::{ExchangeSamples, SampleSource};

/// Why a certificate isn't accepted: the first test that fails in its piece.
#[derive(Clone, Copy, Debug, PartialEq, Eq)]
pub enum Why {
    /// The piece ends before it begins, or after the span.
    Cut,
    /// An entry names a sample that doesn't exist.
    BadSample,
    /// An entry names samples of two servers.
    MixedServers,
    /// Two entries of the piece are of one server.
    RepeatedServer,
    /// Every group with an entry may be false.
    Unbounded,
    /// No error is left that the samples allow: no course of events fits them.
    Contradiction,
    /// The error may lie outside the bound.
    Exceeds,
    /// The pieces end before the span does, or there is none.
    Uncovered,
}

impl Why {
    ghost use Rattle.checker.specs.Verdict.{why_number};

    /// The number of the reason, from 1 to 8 in the order of declaration.
    pub fn number(&self) -> u8
        ensures { result ≡ why_number self.now }
    {
        match self {
            Why::Cut => 1,
            Why::BadSample => 2,
            Why::MixedServers => 3,
            Why::RepeatedServer => 4,
            Why::Unbounded => 5,
            Why::Contradiction => 6,
            Why::Exceeds => 7,
            Why::Uncovered => 8,
        }
    }
}

/// What a certificate shows of a claim.
#[derive(Clone, Copy, Debug, PartialEq, Eq)]
pub enum Verdict {
    /// The clock stayed within the bound, in every course of events that fits the exchanges.
    Yes,
    /// The certificate doesn't show it.
    No {
        /// The number of the piece, from 0; of `Uncovered`, how many pieces there are.
        piece: u32,
        /// The first test that failed there.
        why: Why,
    },
}

/// Whether the certificate shows that the error of the client's clock is within the claimed bound
/// at every reading of the claimed span. It takes no memory.
///
/// The samples are those of all exchanges, in their order, and the certificate has at most 100,000
/// pieces. For each the tests come in this order: `Cut`; entry by entry `BadSample`,
/// `MixedServers`, `RepeatedServer`; `Unbounded`, `Contradiction`, `Exceeds`. After the last piece
/// comes `Uncovered`.
pub fn check(samples: &[Sample], claim: &Claim, certificate: &Certificate) -> Verdict
    requires samples { All IsLawfulSample samples.now }
    requires listed { All (λ sample. sample.server < length claim.now.servers.items) samples.now }
    requires pieces { vec_len certificate.now.pieces ≤ max_pieces }
    ensures { IsVerdictOn (claim_data claim.now) samples.now (certificate_data certificate.now)
        result }
{
    verdicts_are_traceable();
    first_fault(samples, claim, certificate)
}

/// Whether the certificate shows that of exchanges: `check` of their samples with the claim's
/// allowance, each made when it is asked for, so that no list of them is kept.
pub fn check_exchanges<X: ToExchange>(
    exchanges: &[X],
    claim: &Claim,
    certificate: &Certificate,
) -> Verdict
    requires exchanges { All (IsLawfulExchange (length claim.now.servers.items))
        (map X.shown exchanges.now) }
    requires pieces { vec_len certificate.now.pieces ≤ max_pieces }
    ensures { IsVerdictOn (claim_data claim.now)
        (samples_of (map X.shown exchanges.now) (claim_data claim.now))
        (certificate_data certificate.now) result }
{
    verdicts_are_traceable();
    let source = ExchangeSamples {
        exchanges,
        reading: claim.reading,
    };
    first_fault(source, claim, certificate)
}

/// The verdict, piece by piece.
fn first_fault<S: SampleSource>(samples: S, claim: &Claim, certificate: &Certificate) -> Verdict
    requires samples { All IsLawfulSample (S.samples samples) }
    requires listed { All (λ sample. sample.server < length claim.now.servers.items)
        (S.samples samples) }
    requires pieces { vec_len certificate.now.pieces ≤ max_pieces }
    ensures { result ≡ verdict_of (S.samples samples)
        (claim_data claim.now) (certificate_data certificate.now) }
{
    let mut begin = claim.first;
    for (number, piece) in certificate.pieces.iter().enumerate() {
        if let Some(why) = piece_fault(samples, claim, begin, piece) {
            return Verdict::No {
                piece: number as u32,
                why,
            };
        }
        begin = i128::from(piece.upto);
    }
    let count = certificate.pieces.len();
    if count > 0 && begin == claim.last {
        return Verdict::Yes;
    }
    Verdict::No {
        piece: count as u32,
        why: Why::Uncovered,
    }
}
