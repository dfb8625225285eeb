//! What a claim and a capture give together.

use claim_file::Claim;
use pairing::CompactCollection;

/// A claim, and the exchanges and counts of a capture that is held against it.
#[derive(Drop)]
pub struct Evidence {
    /// The claim.
    pub(crate) claim: Claim,
    /// The exchanges of its client and its servers, and the counts.
    pub(crate) held: CompactCollection,
}
