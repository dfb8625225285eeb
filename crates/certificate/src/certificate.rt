//! A certificate.

use arrayvec::ArrayVec;

/// How many pieces a certificate that is read may have.
pub const MAX_PIECES: usize = 100_000;

/// How many entries a piece may have.
pub(crate) const MAX_ENTRIES: usize = 32;

/// One piece of the span.
#[derive(Debug, Drop)]
pub struct Piece {
    /// The piece's end, in Unix ticks of 2^-32 s. It begins where the piece before it ends.
    pub upto: u64,
    /// At most 32 entries: the number of the sample for the low end, and of the one for the high
    /// end, of the error of one server.
    pub entries: ArrayVec<(u32, u32), 32>,
}

/// A certificate: the pieces of the span, in order.
#[derive(Debug, Drop)]
pub struct Certificate {
    /// The pieces.
    pub pieces: Vec<Piece>,
}
