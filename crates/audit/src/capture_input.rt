//! The reading of a capture.

ghost use Rattle.std.specs.Prelude.{◌≡◌, ◌⊎◌, IfOk, IfErr, IfSome, length, Err};
ghost use Rattle.audit.specs.Common.{CountsFault, TakesAtMost, IsReadable, most_taken, data_of, AreLawful, compact_data, Reads, is_capture, is_device, HasLawfulHeader};
ghost use Rattle.audit.specs.CaptureInput.{IsOfCapture, capture_read, pair_run_fault_of};

use byte_stream::Feed;
use claim_file::Claim;
use pairing::{CompactCollection, PairFault, collect_compact};
use pcap_reader::Capture;
use report::RunFault;
use std::alloc::Global;
use std::hash::BuildHasher;

/// What a run answers if exchanges can't be collected for this reason.
fn run_fault_of(fault: PairFault) -> RunFault
    ensures { result ≡ pair_run_fault_of fault }
{
    match fault {
        PairFault::Capture(fault) => RunFault::from(fault),
        PairFault::TooManyExchanges => RunFault::Exchanges,
        PairFault::Memory => RunFault::Memory,
    }
}

/// Collects the exchanges of a capture under a claim. The feed is handed back beside them.
///
/// `Capture` comes if it isn't a capture or ends too early, `Exchanges` if it has over 1,000,000 of
/// them, `Device` if the feed failed. `Memory` comes before the first byte is taken, or if the
/// capture begins with a lawful header. The hash of the index of requests is keyed by two numbers
/// of `hasher`: callers that don't trust the capture's writer should pass one with a random key.
#[tactic(auto, using(crate::proofs::Capture::capture_refused))]
pub(crate) fn read_capture_from<F: Feed, H: BuildHasher + Drop>(
    alloc: Global,
    feed: F,
    claim: &Claim,
    hasher: H,
) -> (F, Result<CompactCollection, RunFault>)
    requires feed { IsReadable (F.state feed) }
    ensures known { IfSome (F.state feed).remaining (λ bytes.
        Reads compact_data (capture_read (data_of claim.now) bytes) result.1) }
    ensures lawful { IfOk result.1 (λ held.
        AreLawful (length claim.now.servers.items) (compact_data held).exchanges) }
    ensures fault { IfErr result.1 IsOfCapture }
    ensures counts_fault { CountsFault (is_device is_capture result.1)
        (F.state feed).faults (F.state result.0).faults }
    ensures at_most { TakesAtMost most_taken
        (F.state feed) (F.state result.0) }
    ensures memory { result.1 ≡ Err RunFault.Memory →
        (result.0 ≡ feed) ⊎ HasLawfulHeader (F.state feed).remaining }
{
    match Capture::begin(alloc, feed) {
        Ok(mut source) => {
            let collected = collect_compact(alloc, &mut source, claim, hasher);
            let feed = source.into_feed();
            match collected {
                Ok(held) => (feed, Ok(held)),
                Err(fault) => (feed, Err(run_fault_of(fault))),
            }
        }
        Err((feed, fault)) => (feed, Err(RunFault::from(fault))),
    }
}
