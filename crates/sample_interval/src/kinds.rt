//! The types that this crate speaks of.

/// What one exchange says about the client's error, in ticks of 2^-32 s. Error is the clock's
/// reading less true time.
///
/// Each number lies from -2^72 to 2^72, and no window ends before it begins.
#[derive(Clone, Copy, Debug, PartialEq, Eq)]
pub struct Sample {
    /// The server's number in the claim.
    pub server: u8,
    /// The least error at the request.
    pub low: i128,
    /// The least reading of the clock at the request.
    pub low_from: i128,
    /// The greatest reading of the clock at the request.
    pub low_to: i128,
    /// The greatest error at the reply.
    pub high: i128,
    /// The least reading of the clock at the reply.
    pub high_from: i128,
    /// The greatest reading of the clock at the reply.
    pub high_to: i128,
}
