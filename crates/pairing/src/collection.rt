//! The exchanges of a whole capture.

ghost use Rattle.std.specs.Prelude.{◌≡◌, ◌-◌, ◌^◌, ◌<◌, ◌⊎◌, [], Err, OnOk, IfErr, IfSome};
ghost use Rattle.pairing.specs.Common.{IsFresh, data_of};
ghost use Rattle.pairing.specs.Answer.{Collects, IsFromOutside, LeavesSource, answer_of};
ghost use Rattle.pairing.specs.Gathering.{IsGatheredFrom};
ghost use Rattle.pairing.specs.Compact.{compact_data};
ghost use Rattle.pairing.specs.Pairing.{data_of as collection_data};
ghost use Rattle.pairing.specs.Reading.{GathersAll};

use crate::collected::Collected;
use crate::compact::CompactCollection;
use crate::fault::PairFault;
use crate::gathering::Gathering;
use crate::hashing::KeyHasher;
use crate::laws::exchanges_keep_their_limits;
use crate::message::read_message;
use claim_file::Claim;
use pcap_reader::RecordSource;
use std::alloc::Global;
use std::hash::{BuildHasher, BuildHasherDefault, FoldHasher};

/// Gathers what each record of a source says.
fn gather<S: RecordSource>(
    source: &mut S,
    claim: &Claim,
    gathering: &mut Gathering,
) -> Result<(), PairFault>
    requires fresh { IsFresh (S.state source.old) }
    requires room { (S.state source.old).fault_count < 2 ^ 64 - 1 }
    requires empty { IsGatheredFrom (data_of claim.now) []
        gathering.old.requests.items gathering.old.exchanges.items
        gathering.old.counts }
    ensures whole { OnOk result (GathersAll (data_of claim.now) (S.state source.old).remaining
        gathering.new.requests.items gathering.new.exchanges.items
        gathering.new.counts) }
    ensures fault { IfErr result (λ fault. IfSome (S.state source.old).remaining (λ coming.
        IsFromOutside fault ⊎ (answer_of (data_of claim.now) coming ≡ Err fault))) }
    ensures leaves { LeavesSource (S.state source.old) result (S.state source.new) }
{
    'records: loop {
        match source.next_record() {
            Ok(Some(head)) => {
                let message = read_message(claim, &head, source.bytes());
                gathering.take(&head, message)?;
            }
            Ok(None) => return Ok(()),
            Err(fault) => return Err(PairFault::Capture(fault)),
        }
    }
}

/// Collects the exchanges and counts of a whole capture, in one pass, with an index of requests
/// whose hash is keyed by two numbers of `hasher`. Callers that don't trust the capture's writer
/// should pass a hasher with a random key.
///
/// The source has given nothing and answered no fault. `Capture` comes if the source ends with a
/// fault, `TooManyExchanges` if it ends whole with over 1,000,000 exchanges, and `Memory` if no
/// memory was left. After a fault the source is used no further.
pub fn collect_compact<S: RecordSource, H: BuildHasher + Drop>(
    alloc: Global,
    source: &mut S,
    claim: &Claim,
    hasher: H,
) -> Result<CompactCollection, PairFault>
    requires fresh { IsFresh (S.state source.old) }
    requires room { (S.state source.old).fault_count < 2 ^ 64 - 1 }
    ensures { Collects compact_data (data_of claim.now) (S.state source.old) result
        (S.state source.new) }
{
    exchanges_keep_their_limits();
    let mut gathering = Gathering::new(alloc);
    gather(source, claim, &mut gathering)?;
    gathering.finish(alloc, KeyHasher::keyed_by(&hasher))
}

/// Collects the exchanges and counts of a whole capture, as `collect_compact` does, with std's
/// hasher of a fixed key, and gives the exchanges with all their fields, in 128 bytes each.
pub fn collect<S: RecordSource>(
    alloc: Global,
    source: &mut S,
    claim: &Claim,
) -> Result<Collected, PairFault>
    requires fresh { IsFresh (S.state source.old) }
    requires room { (S.state source.old).fault_count < 2 ^ 64 - 1 }
    ensures { Collects collection_data (data_of claim.now) (S.state source.old) result
        (S.state source.new) }
{
    let hasher = BuildHasherDefault::<FoldHasher>::new();
    let held = collect_compact(alloc, source, claim, hasher)?;
    Ok(Collected::new(alloc, &held)?)
}
