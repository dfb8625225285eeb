//! A refutation.

use arrayvec::ArrayVec;

/// How many servers a refutation may name.
pub(crate) const MAX_LIARS: usize = 32;

/// A refutation of a claim: at this reading the clock may have been off by this error, if these
/// servers are false.
#[derive(Debug, Drop)]
pub struct Refutation {
    /// The error, reading less true time, in ticks of 2^-32 s.
    pub error: i64,
    /// The numbers of the servers that have to be false, at most 32.
    pub liars: ArrayVec<u8, 32>,
    /// The reading of the clock, in Unix ticks of 2^-32 s.
    pub reading: u64,
}
