//! The samples of exchanges.

ghost use Rattle.std.specs.Prelude.{◌≡◌, ◌≤◌, length};
ghost use Rattle.audit.specs.Common.{data_of, AreSamplesOf};
ghost use Rattle.audit.specs.Evidence.{IsLawfulEvidence, evidence_data, samples_in};

use crate::evidence::Evidence;
use finder::exchange_samples;
use pairing::CompactExchange;
use sample_interval::{ExchangeSamples, SampleSource};

/// The samples of the exchanges, in their order, with the claimed allowance.
pub(crate) fn samples_of<'a>(evidence: &'a Evidence) -> ExchangeSamples<'a, CompactExchange>
    requires { IsLawfulEvidence evidence.now }
    ensures samples { ⟦<ExchangeSamples<'a, CompactExchange> as SampleSource>⟧.samples result
        ≡ samples_in (evidence_data evidence.now) }
    ensures of_claim { AreSamplesOf (data_of evidence.now.claim)
        (samples_in (evidence_data evidence.now)) }
    ensures few { length (samples_in (evidence_data evidence.now)) ≤ 1_000_000 }
{
    exchange_samples(&evidence.held.exchanges, &evidence.claim)
}
