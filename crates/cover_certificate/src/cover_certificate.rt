//! A certificate by covers.

use arrayvec::ArrayVec;
use certificate::Piece;

/// How many cases a certificate by covers may have.
pub const MAX_CASES: usize = 64;

/// How many conflicts it may name: one for each of 32 groups, and one for each two.
pub const MAX_CONFLICTS: usize = 528;

/// One case: some groups hold a false server. The pieces go by the others.
#[derive(Debug, Drop)]
pub struct Case {
    /// The numbers of these groups.
    pub groups: ArrayVec<u8, 32>,
    /// The pieces of the span, in order. An entry names two exchanges of one server, the one for
    /// its low mark and the one for its high mark.
    pub pieces: Vec<Piece>,
}

/// A certificate by covers: exchanges that can't all be of true servers, and what follows for each
/// way in which servers may be false.
#[derive(Debug, Drop)]
pub struct CoverCertificate {
    /// Pairs of exchanges: the one for its low mark, and the one for its high mark. An exchange
    /// that is impossible by itself stands for both.
    pub conflicts: Vec<(u32, u32)>,
    /// The cases.
    pub cases: Vec<Case>,
}
