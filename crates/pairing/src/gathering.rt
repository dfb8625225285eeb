//! What is gathered while a capture is read.

ghost use Rattle.std.specs.Prelude.{◌≡◌, ◌^◌, ◌<◌, [], ◌++◌, ◌⊎◌, List, length, Ok, Err, OnOk, MatchResult, vec_len};
ghost use Rattle.era_unfold.specs.Window.{per_second};

use crate::compact::{CompactCollection, CompactExchange};
use crate::counts::Counts;
use crate::fault::PairFault;
use crate::hashing::KeyHasher;
use crate::index::{Index, IndexedRequest};
use crate::join::join;
use crate::message::Message;
use pcap_reader::RecordHead;
use std::alloc::{AllocError, Global};

/// The requests, the replies that their own headers accept, and the counts.
#[derive(Drop)]
pub(crate) struct Gathering {
    pub requests: Vec<IndexedRequest>,
    pub exchanges: Vec<CompactExchange>,
    pub counts: Counts,
}

impl Gathering {
    ghost use Rattle.pairing.specs.Counts.{HasRoom};
    ghost use Rattle.pairing.specs.Gathering.{counts_with, compact_in, indexed_in, IsGatheredFrom};
    ghost use Rattle.pairing.specs.Compact.{compact_data};
    ghost use Rattle.pairing.specs.Pairing.{collection_of};
    ghost use Rattle.claim_file.specs.Claim.{ClaimData};
    ghost use Rattle.pcap_reader.specs.Capture.{Record};

    /// Nothing yet.
    pub(crate) fn new(alloc: Global) -> Gathering
        ensures { (claim : ClaimData) → IsGatheredFrom claim []
            result.requests.items result.exchanges.items result.counts }
    {
        Gathering {
            requests: Vec::new(alloc),
            exchanges: Vec::new(alloc),
            counts: Counts::zero(),
        }
    }

    /// Gathers what one more record says.
    #[inline(always)]
    pub(crate) fn take(
        &mut self,
        head: &RecordHead,
        message: Option<Message>,
    ) -> Result<(), AllocError>
        requires room { HasRoom self.old.counts 1 }
        requires part_of_a_second { head.now.sub < per_second head.now.unit }
        ensures keeps { OnOk result (self.new.requests.items
            ≡ self.old.requests.items ++ indexed_in message head.now) }
        ensures holds { OnOk result (self.new.exchanges.items
            ≡ self.old.exchanges.items ++ compact_in message) }
        ensures counted { OnOk result (self.new.counts ≡ counts_with message self.old.counts) }
    {
        match message {
            None => {}
            Some(Message::Request(key)) => {
                self.counts.requests += 1;
                self.requests.push(IndexedRequest::new(key, head))?;
            }
            Some(Message::Refused(refusal)) => {
                self.counts.replies += 1;
                self.counts.refuse(refusal);
            }
            Some(Message::Reply(reply)) => {
                self.counts.replies += 1;
                self.exchanges.push(reply)?;
            }
        }
        self.counts.records += 1;
        Ok(())
    }

    /// What is collected, once the whole capture is gathered.
    pub(crate) fn finish(
        mut self,
        alloc: Global,
        hasher: KeyHasher,
    ) -> Result<CompactCollection, PairFault>
        requires { HasRoom self.counts (vec_len self.exchanges) }
        ensures { (claim : ClaimData) (records : List Record) →
            IsGatheredFrom claim records self.requests.items
            self.exchanges.items self.counts →
            MatchResult result
            (λ held. collection_of claim records ≡ Ok (compact_data held))
            (λ fault. (fault ≡ PairFault.Memory) ⊎ (collection_of claim records ≡ Err fault)) }
    {
        let index = Index::new(alloc, &self.requests, hasher)?;
        let kept = join(&index, &mut self.exchanges, &mut self.counts)?;
        self.exchanges.truncate(kept);
        Ok(CompactCollection {
            exchanges: self.exchanges,
            counts: self.counts,
        })
    }
}
